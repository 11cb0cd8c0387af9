// The engine over the shipped library: what load refuses and where, what each call refuses, charts that feed back, save, trace and limits.
#![tactic(auto)]

#[cfg(test)]
mod calls;
#[cfg(test)]
mod expected;
#[cfg(test)]
mod faults;
#[cfg(test)]
mod feedback;
#[cfg(test)]
mod limits;
#[cfg(test)]
mod saves;
#[cfg(test)]
mod traces;

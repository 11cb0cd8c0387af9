// The signals at their borders.
#![tactic(auto)]

#[cfg(test)]
mod tests;

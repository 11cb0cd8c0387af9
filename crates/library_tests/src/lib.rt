// The shipped library and the layers at their borders.
#![tactic(auto)]

#[cfg(test)]
mod tests;

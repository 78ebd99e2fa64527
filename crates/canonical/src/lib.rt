// From a game given as two rows of forms to the number of its canonical form.
#![tactic(auto)]

pub mod canonical;
pub mod compare;
pub mod given;
pub mod keep;
pub mod rising;
#[cfg(test)]
mod tests;
pub mod thin;

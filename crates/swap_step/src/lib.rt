// One step of a scanner in a two-word swap: what the access does is found first, and then written.
#![tactic(auto)]

pub mod step_once;
#[cfg(test)]
mod tests;
pub mod writes;

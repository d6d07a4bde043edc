// A word of the shared tables, told apart and encoded.
#![tactic(auto)]

pub mod told;
pub mod word;

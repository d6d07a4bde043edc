// What the board says no to: one enum for the whole program.
#![tactic(auto)]

pub mod refusal;
pub mod texts;

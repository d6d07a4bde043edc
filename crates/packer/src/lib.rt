// Turns lines of order texts into a session file.
#![tactic(auto)]

pub mod fault;
mod lines;
pub mod pack;

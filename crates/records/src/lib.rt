// The records of the shared tables.
#![tactic(auto)]

pub mod entries;
pub mod scanner;

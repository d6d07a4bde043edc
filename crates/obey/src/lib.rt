// One order of a session: carried out on the board, and its line printed.
#![tactic(auto)]

pub mod carry_out;
pub mod kinds_used;
pub mod phase;
pub mod print;

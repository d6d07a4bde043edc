// The two-word swap: what a scanner does at each position, as a value.
#![tactic(auto)]

pub mod beginnings;
pub mod dispatch;
pub mod ends;
pub mod marks;
pub mod results;

// The accesses of a two-word swap: where a scanner stands, and what one access to the shared tables does.
#![tactic(auto)]

pub mod accesses;
pub mod effect;
pub mod found;
pub mod names;
pub mod position;

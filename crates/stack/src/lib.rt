// The stack, a kind of tray: the parcel put in last is the first that is taken.
#![tactic(auto)]

pub mod stack;

// The queue, a kind of tray: the first parcel that was put in is the first that is taken.
#![tactic(auto)]

pub mod queue;

// The parcels of a tray, read along the next words of its nodes.
#![tactic(auto)]

pub mod parcels;

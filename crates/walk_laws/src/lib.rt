// The walk along next words gives the contents of a tray.
#![tactic(auto)]

pub mod contents;

// Kinds of tray: what a request at a tray does next, by its kind.
#![tactic(auto)]

pub mod acts;
pub mod addresses;
pub mod kind;
pub mod pair;

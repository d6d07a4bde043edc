// Taking places of a table: numbered upward from 1, and none twice.
#![tactic(auto)]

pub mod places;

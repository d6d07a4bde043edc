// The board: begun over four lent tables, laid out with trays, then started. The phase is the type.
#![tactic(auto)]

pub mod begin;
pub mod board;
pub mod bounds;
pub mod kinds_laid;
pub mod lay;
mod room;
pub mod start;
pub mod tables;
mod take_places;

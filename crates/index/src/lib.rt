// Reads session files, which hold order texts behind an index.
#![tactic(auto)]

pub mod file;
mod pairs;
pub mod texts;

// Orders, read from their texts.
#![tactic(auto)]

mod number;
pub mod order;
mod read;
#[cfg(test)]
mod tests;

pub use read::read_order;

// Printed texts and lines, written into what is left of a lent output.
#![tactic(auto)]

mod digits;
mod line;
mod output;
mod printed;
#[cfg(test)]
mod tests;
mod text;

pub use line::Line;
pub use output::put;
pub use printed::Printed;

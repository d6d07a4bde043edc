// The shared tables as a step sees them: how a word is read and written through them, and what it stands for.
#![tactic(auto)]

pub mod address;
pub mod meaning;
pub mod memory_mut;
pub mod reads;
pub mod taken;
pub mod view;
pub mod writes;

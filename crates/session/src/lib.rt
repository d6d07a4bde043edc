// A session: order texts in, printed lines out.
#![tactic(auto)]

pub mod fault;
pub mod play;

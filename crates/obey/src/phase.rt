// How far the day has come, and what an order answers.
use crate::kinds_used::Kinds;
use board::board::{Layout, Running};
use refusals::refusal::Refusal;

// The board in its phase.
#[derive(Drop)]
pub enum Phase {
    LaidOut(Layout<Kinds>),
    Running(Running<Kinds>),
}

// What an accepted order answers. `Started` is an answer of its own and not a missing tray number, so this is no `Option<u32>`.
#[derive(Clone, Copy, PartialEq, Eq, Debug)]
pub enum Reply {
    // the number of the tray that was laid
    Laid(u32),
    Started,
}

// An order's answer, and the board after it.
#[derive(Drop)]
pub struct Obeyed {
    pub phase: Phase,
    pub reply: Result<Reply, Refusal>,
}

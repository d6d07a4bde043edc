// How a session ends.
ghost use Rattle.std.specs.Prelude.{Some};
ghost use Rattle.session.specs.Words.{words_of};

use refusals::refusal::Refusal;
use std::error::Error;
use std::fmt;

// Why a session ended early, and at which order; order 0 stands for what comes before the first.
#[derive(Clone, Copy, PartialEq, Eq, Debug)]
pub struct SessionFault {
    pub order: u32,
    pub cause: Refusal,
}

// The message to people.
impl fmt::Display for SessionFault {
    ghost output = { λ fault. Some (words_of fault) };

    fn fmt<W: fmt::Write>(&self, f: &mut fmt::Formatter<W>) -> fmt::Result {
        let order = self.order;
        let cause = self.cause;
        let why = cause.explanation();
        write!(f, "the session ended at order {order} with {cause}: {why}")
    }
}

impl Error for SessionFault {}

// A session that is over: how many bytes it wrote, and why it ended early, if it did. What was written stands also where the
// session ended early, so this is no Result.
#[derive(Clone, Copy, PartialEq, Eq, Debug)]
pub struct Played {
    pub written: usize,
    pub fault: Option<SessionFault>,
}

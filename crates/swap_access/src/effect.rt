// What an access does, as a value: nothing is written here.
ghost use Rattle.std.specs.Prelude.{◌≡◌};
ghost use Rattle.swap_access.specs.Effects.{no_write, end_of};

use crate::position::{End, Next};

// The one write of an access.
#[derive(Clone, Copy, PartialEq, Eq, Debug)]
pub enum Write {
    Word { address: u32, word: u32 },
    Result { descriptor: u32, result: u32 },
}

// An access: its write, if it makes one, and where the scanner stands after it.
#[derive(Clone, Copy, PartialEq, Eq, Debug)]
pub struct Effect {
    pub write: Option<Write>,
    pub next: Next,
}

// An access that writes nothing.
pub fn write_nothing(next: Next) -> Effect
    ensures { result ≡ no_write next }
{
    Effect { write: None, next }
}

// The end that a result of success or of second failed says.
pub fn end_of(success: bool) -> Next
    ensures { result ≡ end_of success }
{
    if success {
        Next::Ended(End::Success)
    } else {
        Next::Ended(End::SecondFailed)
    }
}

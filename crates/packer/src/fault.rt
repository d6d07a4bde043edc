// Why lines are not packed.
ghost use Rattle.std.specs.Prelude.{◌≡◌, Some};
ghost use Rattle.packer.specs.declared.fault.PackFault.TheVariants.{Memory};
ghost use Rattle.packer.specs.Words.{words_of};

use std::alloc::AllocError;
use std::error::Error;
use std::fmt;

#[derive(Clone, Copy, PartialEq, Eq, Debug)]
pub enum PackFault {
    // the session file would be over 16,384 bytes
    TooLong,
    // no memory is left
    Memory,
}

impl From<AllocError> for PackFault {
    ghost from_gives = { λ _ r. r ≡ Memory };

    fn from(_e: AllocError) -> PackFault {
        PackFault::Memory
    }
}

// The message to people.
impl fmt::Display for PackFault {
    ghost output = { λ fault. Some (words_of fault) };

    fn fmt<W: fmt::Write>(&self, f: &mut fmt::Formatter<W>) -> fmt::Result {
        match self {
            Self::TooLong => write!(f, "the session file would be longer than 16,384 bytes"),
            Self::Memory => write!(f, "there is no memory for the session file"),
        }
    }
}

impl Error for PackFault {}

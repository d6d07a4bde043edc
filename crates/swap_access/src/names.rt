// Positions and ends in words, as they are printed.
ghost use Rattle.std.specs.Prelude.{Some};
ghost use Rattle.swap_access.specs.Names.{position_name, end_name};

use crate::position::{End, Position};
use std::fmt;

impl fmt::Display for Position {
    ghost output = { λ p. Some (position_name p) };

    fn fmt<W: fmt::Write>(&self, f: &mut fmt::Formatter<W>) -> fmt::Result {
        f.write_str(match self {
            Position::Publish { .. } => "publish",
            Position::ReadResult { .. } => "read result",
            Position::Clean { .. } => "clean",
            Position::PlaceMark { .. } => "place mark",
            Position::ReRead { .. } => "re-read",
            Position::TryToFail { .. } => "try to fail",
            Position::GiveBack { .. } => "give back",
            Position::Decide { .. } => "decide",
            Position::FinishFirst { .. } => "finish first",
            Position::FinishSecond { .. } => "finish second",
            Position::WriteSuccess { .. } => "write success",
            Position::Withdraw { .. } => "withdraw",
        })
    }
}

impl fmt::Display for End {
    ghost output = { λ e. Some (end_name e) };

    fn fmt<W: fmt::Write>(&self, f: &mut fmt::Formatter<W>) -> fmt::Result {
        f.write_str(match self {
            End::FirstFailed => "first failed",
            End::Success => "success",
            End::SecondFailed => "second failed",
            End::Helped => "helped",
        })
    }
}

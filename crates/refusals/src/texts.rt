// What is printed of a refusal: its number, and a text for people.
ghost use Rattle.std.specs.Prelude.{◌≡◌, Some, decimal};
ghost use Rattle.refusals.specs.Numbers.{number_of};
ghost use Rattle.refusals.specs.Texts.{explained};

use crate::refusal::Refusal;
use std::error::Error;
use std::fmt;

impl From<Refusal> for u32 {
    ghost from_gives = { λ r n. n ≡ number_of r };

    // The number that is printed.
    fn from(refusal: Refusal) -> u32 {
        refusal as u32
    }
}

impl Refusal {
    // The refusal in words.
    pub fn explanation(self) -> &'static str
        ensures { result.now ≡ explained self }
    {
        match self {
            Refusal::TableLength => "a table has the wrong length",
            Refusal::TraysFull => "32 trays stand already",
            Refusal::CrewSize => "a crew has 1 to 16 scanners",
            Refusal::NodesFull => "no node place is left",
            Refusal::NotInCrew => "the scanner is not in the crew",
            Refusal::NumberOutOfTurn => "the request number is out of turn",
            Refusal::WishDiffers => "the last number came with another wish",
            Refusal::Busy => "the last request is still in work",
            Refusal::NoSuchTray => "there is no such tray",
            Refusal::ParcelZero => "0 is no parcel number",
            Refusal::SameTray => "a move needs two different trays",
            Refusal::DescriptorsFull => "no descriptor place is left",
            Refusal::NothingInWork => "the scanner has no request in work",
            Refusal::Torn => "a table entry is damaged",
            Refusal::Wording => "the order cannot be read",
            Refusal::OutOfPhase => "the order does not belong to this phase of the day",
            Refusal::BadIndex => "the session file is damaged or too long",
            Refusal::OutputFull => "the output is too short for the line",
        }
    }
}

impl fmt::Display for Refusal {
    ghost output = { λ r. Some (decimal (number_of r)) };

    fn fmt<W: fmt::Write>(&self, f: &mut fmt::Formatter<W>) -> fmt::Result {
        let number = u32::from(*self);
        write!(f, "{number}")
    }
}

impl Error for Refusal {}

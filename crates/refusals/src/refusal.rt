// A refusal. The numbers are part of the printed format and never change.
#[derive(Clone, Copy, PartialEq, Eq, Debug)]
pub enum Refusal {
    // a table's length is wrong, or not the one that the board was begun with
    TableLength = 1,
    // 32 trays stand
    TraysFull = 2,
    // a start with a crew of 0 or of more than 16
    CrewSize = 3,
    // no node place is left
    NodesFull = 4,
    // the scanner is not in the crew
    NotInCrew = 5,
    // the number lies outside 1 to 1,000,000, or is neither the last one nor the one after it
    NumberOutOfTurn = 6,
    // the last number comes again with another wish
    WishDiffers = 7,
    // the next number comes while the last request is in work
    Busy = 8,
    // no such tray
    NoSuchTray = 9,
    // parcel 0
    ParcelZero = 10,
    // a move within one tray
    SameTray = 11,
    // no descriptor place is left
    DescriptorsFull = 12,
    // a step with no request in work
    NothingInWork = 13,
    // a table entry has no valid form, or names a place that is not taken
    Torn = 14,
    // an order text has no valid form, or a number over 4,294,967,295
    Wording = 15,
    // an order comes before its phase or after it
    OutOfPhase = 16,
    // the session file's index is damaged, or the file is too long
    BadIndex = 17,
    // the output is too short for a line
    OutputFull = 18,
}

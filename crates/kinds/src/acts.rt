// What a request at a tray does next, and what it notes.
use records::entries::Swap;

// What a request has noted of its reads; `stage` tells how far it has come, 0 at the start. It is a number, since the notes are to
// lie in the scanner's record, which is the same type for all kinds, and each kind has stages of its own.
#[derive(Clone, Copy, PartialEq, Eq, Debug)]
pub struct Notes {
    pub stage: u32,
    pub one: u32,
    pub two: u32,
    pub three: u32,
    pub parcel: u32,
}

impl Notes {
    pub const START: Notes = Notes {
        stage: 0,
        one: 0,
        two: 0,
        three: 0,
        parcel: 0,
    };
}

// The next act of a put. A tidying swap changes no contents; the commit puts the parcel in.
#[derive(Clone, Copy, PartialEq, Eq, Debug)]
pub enum PutAct {
    Read(u32),
    Tidy(Swap),
    Commit(Swap),
}

// The next act of a take. Its commit names the parcel that it gives; `Empty` finishes it.
#[derive(Clone, Copy, PartialEq, Eq, Debug)]
pub enum TakeAct {
    Read(u32),
    Tidy(Swap),
    Commit { swap: Swap, parcel: u32 },
    Empty,
}

// What a read found: the word, and, read privately of the node that it names, the parcel, and the next word where the kind peeks.
#[derive(Clone, Copy, PartialEq, Eq, Debug)]
pub struct Found {
    pub word: u32,
    pub next: u32,
    pub parcel: u32,
}

impl Found {
    pub const NOTHING: Found = Found {
        word: 0,
        next: 0,
        parcel: 0,
    };
}

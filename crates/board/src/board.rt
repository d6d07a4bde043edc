// The board's own state: plain numbers, kept within the tables by an invariant in the type.
use crate::room::Room;
use std::marker::{Model, PhantomData};

// How many trays and scanners a board has at most, and how many of the places of a table a word can name.
pub const MOST_TRAYS: u32 = 32;

pub const MOST_CREW: u32 = 16;

pub const MOST_PLACES: usize = 4095;

// The length of the tray table and of the scanner table.
pub const TRAY_WORDS: usize = 64;

pub const SCANNERS: usize = 16;

// `kinds` has a digit of four bits for each tray: its kind number. It is one number and no array, since a refused start hands this
// state back.
#[derive(Drop)]
pub struct Board {
    pub(crate) trays: u32,
    pub(crate) crew: u32,
    pub(crate) kinds: u128,
    pub(crate) nodes: Room,
    pub(crate) descriptors: Room,
}

// Clauses see a board's numbers.
impl Model for Board {
    ghost use Rattle.board.specs.Numbers.{Numbers};

    ghost Value = { Numbers };

    ghost use Rattle.board.specs.Kept.{BoardKept};
    ghost use Rattle.board.specs.Views.{numbers};

    ghost view = { numbers };

    ghost invariant = { λ b. BoardKept (numbers b) };
}

// A board that is laid out: trays may be added to it. Its trays are of the kinds of K.
#[derive(Drop)]
pub struct Layout<K> {
    pub(crate) board: Board,
    pub(crate) kind: PhantomData<K>,
}

impl<K> Model for Layout<K> {
    ghost use Rattle.board.specs.Numbers.{Numbers};

    ghost Value = { Numbers };

    ghost view = { λ l. l.board };
}

// A board that runs: its crew may hand requests in.
#[derive(Drop)]
pub struct Running<K> {
    pub(crate) board: Board,
    pub(crate) kind: PhantomData<K>,
}

impl<K> Model for Running<K> {
    ghost use Rattle.std.specs.Prelude.{◌≤◌};
    ghost use Rattle.board.specs.Numbers.{Numbers};

    ghost Value = { Numbers };

    ghost view = { λ r. r.board };

    ghost invariant = { λ r. 1 ≤ r.board.crew };
}

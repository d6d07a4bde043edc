// The kinds of the trays that are laid, packed into one number: four bits for each tray, tray 0 lowest.
ghost use Rattle.std.specs.Prelude.{◌≡◌, ◌<◌, ◌≤◌};
ghost use Rattle.board.specs.Kinds.{kind_of};
ghost use Rattle.board.specs.Lays.{with_tray};

use crate::board::{Board, Layout, Running};

// The highest kind number that a board keeps; a higher one is taken as this.
pub const LAST_KIND: u32 = 15;

impl Board {
    // Counts one tray more, of this kind: its digit stands above those of the other trays.
    pub(crate) fn add_tray(&mut self, kind: u32)
        requires room { self.old.trays < 32 }
        requires digit { kind ≤ 15 }
        ensures { self.new ≡ with_tray self.old kind }
    {
        self.kinds += (kind as u128) << (4 * self.trays);
        self.trays += 1;
    }

    // The kind number of a tray: none where it is not laid.
    pub(crate) fn kind_of(&self, tray: u32) -> Option<u32>
        ensures { result ≡ kind_of self.now tray }
    {
        if tray >= self.trays {
            return None;
        }
        Some(((self.kinds >> (4 * tray)) % 16) as u32)
    }
}

// Both phases pass the one question on: a trait, or a `Deref` to the board, would be longer than the two functions.
impl<K> Layout<K> {
    // The kind number of a tray: none where it is not laid.
    pub fn kind_of(&self, tray: u32) -> Option<u32>
        ensures { result ≡ kind_of self.now tray }
    {
        self.board.kind_of(tray)
    }
}

impl<K> Running<K> {
    // The kind number of a tray: none where it is not laid.
    pub fn kind_of(&self, tray: u32) -> Option<u32>
        ensures { result ≡ kind_of self.now tray }
    {
        self.board.kind_of(tray)
    }
}

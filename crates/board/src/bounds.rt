// Every board keeps its counts within its tables. Its type says so, and the functions below say it to callers, to whom the
// fields are hidden. They do nothing when they run; no other call looks at both tables' counts and leaves the board as it is.
ghost use Rattle.std.specs.Prelude.{◌≤◌};
ghost use Rattle.board.specs.Kept.{Kept, RoomKept};

use crate::board::{Board, Layout, Running};
use crate::room::Room;

impl Room {
    fn show_bounds(&self)
        ensures { RoomKept self.now }
    {
        let _ = &self.room;
    }
}

impl Board {
    fn show_bounds(&self)
        ensures { Kept self.now }
    {
        self.nodes.show_bounds();
        self.descriptors.show_bounds();
    }
}

impl<K> Layout<K> {
    // At most 32 trays, a crew of at most 16, and no more places taken than each table has.
    pub fn show_bounds(&self)
        ensures { Kept self.now }
    {
        self.board.show_bounds();
    }
}

impl<K> Running<K> {
    // The same, and a crew of at least one.
    pub fn show_bounds(&self)
        ensures bounds { Kept self.now }
        ensures manned { 1 ≤ self.now.crew }
    {
        self.board.show_bounds();
    }
}

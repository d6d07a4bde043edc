// How many places a table has, and how many of them are taken: plain numbers, kept within the table by an invariant in the type.
ghost use Rattle.std.specs.Prelude.{◌≡◌, length};
ghost use Rattle.places.specs.Places.{next_place, table_after};
ghost use Rattle.board.specs.Rooms.{room_of, with_place};

use crate::board::MOST_PLACES;
use places::places::Places;
use refusals::refusal::Refusal;
use std::marker::Model;

// `room` is the table's length. The places are numbered from 1, and those up to `taken` are taken.
#[derive(Drop)]
pub struct Room {
    pub(crate) room: u32,
    pub(crate) taken: u32,
}

impl Model for Room {
    ghost use Rattle.board.specs.Rooms.{Counts};

    ghost Value = { Counts };

    ghost use Rattle.board.specs.Kept.{RoomKept};
    ghost use Rattle.board.specs.Views.{counts};

    ghost view = { counts };

    ghost invariant = { λ r. RoomKept (counts r) };
}

impl Room {
    // The room of a table of which no place is taken. A table with no place, or with more than words can name, is refused.
    pub(crate) fn of<T>(table: &[T]) -> Result<Room, Refusal>
        ensures { result ≡ room_of (length table.now) }
    {
        let room = table.len();
        if !(1..=MOST_PLACES).contains(&room) {
            return Err(Refusal::TableLength);
        }
        Ok(Room {
            room: room as u32,
            taken: 0,
        })
    }

    // Takes the table's next place and writes `value` there; none where all are taken.
    pub(crate) fn take<T: Copy>(&mut self, table: &mut [T], value: T) -> Option<u32>
        requires { length table.old ≡ self.old.room }
        ensures answer { result ≡ next_place self.old.room self.old.taken }
        ensures counts { self.new ≡ with_place self.old }
        ensures table { table.new ≡ table_after table.old self.old.taken value }
    {
        let mut places = Places::new(table, self.taken);
        let place = places.take(value)?;
        self.taken = place;
        Some(place)
    }
}

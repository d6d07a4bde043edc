ghost use Rattle.std.specs.Prelude.{◌≡◌, ◌<◌, ◌≤◌, length};
ghost use Rattle.places.specs.Places.{next_place, taken_after, table_after, Taken};

use words::told::LAST_PLACE;

// A lent table of which the places 1 to `taken` are taken. Place n stands at index n - 1.
#[derive(Drop)]
pub struct Places<'a, T> {
    table: &'a mut [T],
    taken: u32,
}

impl<'a, T: Copy> Places<'a, T> {
    // The table with its first `taken` places taken.
    pub fn new(table: &'a mut [T], taken: u32) -> Places<'a, T>
        ensures table { result.table.now ≡ table.old }
        ensures taken { result.taken ≡ taken }
        ensures same { result.table.ghost_name ≡ table.entry.ghost_name }
    {
        Places { table, taken }
    }

    // Takes the next place and writes `value` there; none where the table is full, or where no word could name the place.
    pub fn take(&mut self, value: T) -> Option<u32>
        ensures answer { result ≡ next_place (length self.old.table.now) self.old.taken }
        ensures same { self.new.table.ghost_name ≡ self.old.table.ghost_name }
        ensures after { self.new.table.now ≡ table_after self.old.table.now self.old.taken value }
        ensures count { self.new.taken ≡ taken_after (length self.old.table.now) self.old.taken }
        ensures law { Taken self.old.table.now self.new.table.now self.old.taken self.new.taken value result }
    {
        let taken = self.taken;
        if taken >= LAST_PLACE || taken as usize >= self.table.len() {
            return None;
        }
        self.table[taken as usize] = value;
        self.taken = taken + 1;
        Some(taken + 1)
    }
}

// A table of places, lent for reading.
ghost use Rattle.std.specs.Prelude.{◌≡◌};
ghost use Rattle.memory.specs.Places.{entry_at};

// The places 1 to `taken` are taken. Place n stands at index n - 1.
#[derive(Clone, Copy)]
pub struct Taken<'a, T> {
    pub table: &'a [T],
    pub taken: u32,
}

impl<T: Copy> Taken<'_, T> {
    // The entry at a place: none where the place is not taken.
    pub fn entry(self, place: u32) -> Option<T>
        ensures { result ≡ entry_at self.entry.table.now self.entry.taken place }
    {
        if place > self.taken {
            return None;
        }
        let index = place.checked_sub(1)?;
        self.table.get(index as usize).copied()
    }
}

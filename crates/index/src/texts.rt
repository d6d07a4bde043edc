// The order texts of a session file, one after the other.
ghost use Rattle.std.specs.Prelude.{ℕ, ◌+◌, ◌<◌, ◌≤◌, [], length, get_or};
ghost use Rattle.index.specs.Index.{number_at};

use crate::pairs::place_of;

// The texts that are left.
#[derive(Drop)]
pub struct Texts<'a> {
    pub(crate) bytes: &'a [u8],
    // where each text that is left lies
    pub(crate) index: &'a [[u8; 4]],
    // each of them in the file
    ghost within: { (i : ℕ) → i < length index.now → number_at (get_or index.now i []) 0 + number_at (get_or index.now i []) 2 ≤ length bytes.now },
}

impl<'a> Iterator for Texts<'a> {
    ghost use Rattle.std.specs.Iterator.{YieldsFirstRef, item_count};
    ghost use Rattle.index.specs.Left.{texts_left};

    type Item = &'a [u8];

    ghost next_gives = { YieldsFirstRef texts_left };

    ghost remaining = { item_count texts_left };

    fn next(&mut self) -> Option<&'a [u8]> {
        let (pair, rest) = self.index.split_first()?;
        self.index = rest;
        Some(&self.bytes[place_of(*pair)])
    }
}

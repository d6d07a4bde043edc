// The shared words as a step writes them.
ghost use Rattle.std.specs.Prelude.{◌≡◌};
ghost use Rattle.memory.specs.Lent.{seen_of, seen_through};

use crate::view::Memory;
use records::entries::{Descriptor, Node};

// The tray words, the nodes and the descriptors, with how many places of two of them are taken. The tables are lent whole, and
// the counts are the board's own numbers: so a count stands beside a table. It has no model, since a call has to ensure that it
// leaves the very tables that it was lent (`SameTables`).
#[derive(Drop)]
pub struct MemoryMut<'a> {
    pub words: &'a mut [u32],
    pub nodes: &'a mut [Node],
    pub nodes_taken: u32,
    pub descriptors: &'a mut [Descriptor],
    pub descriptors_taken: u32,
}

impl MemoryMut<'_> {
    // The same words, lent for reading.
    pub fn read(&self) -> Memory<'_>
        ensures { seen_of result ≡ seen_through self.now }
    {
        Memory::new(
            self.words,
            self.nodes,
            self.nodes_taken,
            self.descriptors,
            self.descriptors_taken,
        )
    }
}

// The shared words as a step reads them.
ghost use Rattle.std.specs.Prelude.{◌≡◌};
ghost use Rattle.memory.specs.Seen.{seen};
ghost use Rattle.memory.specs.Lent.{seen_of};

use records::entries::{Descriptor, Node};

// The tray words, the nodes and the descriptors, with how many places of two of them are taken: the counts are the board's own
// numbers, so each stands beside its table. It is copied like the slices that it holds; so it has no model, since a type with a
// model and a lifetime cannot be `Copy`. Clauses see its lists and counts by `seen_of`.
#[derive(Clone, Copy)]
pub struct Memory<'a> {
    pub words: &'a [u32],
    pub nodes: &'a [Node],
    pub nodes_taken: u32,
    pub descriptors: &'a [Descriptor],
    pub descriptors_taken: u32,
}

impl<'a> Memory<'a> {
    // The tables as they are lent, with how many places of two of them are taken.
    pub fn new(
        words: &'a [u32],
        nodes: &'a [Node],
        nodes_taken: u32,
        descriptors: &'a [Descriptor],
        descriptors_taken: u32,
    ) -> Memory<'a>
        ensures { seen_of result ≡ seen words.now nodes.now nodes_taken descriptors.now descriptors_taken }
    {
        Memory {
            words,
            nodes,
            nodes_taken,
            descriptors,
            descriptors_taken,
        }
    }

    // How many nodes are taken.
    pub fn nodes_taken(&self) -> u32
        ensures { result ≡ (seen_of self.now).nodes_taken }
    {
        self.nodes_taken
    }

    // How many descriptors are taken.
    pub fn descriptors_taken(&self) -> u32
        ensures { result ≡ (seen_of self.now).descriptors_taken }
    {
        self.descriptors_taken
    }
}

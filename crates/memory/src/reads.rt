// Reads of the tables. An entry of no valid form, or one that names a place that is not taken, is torn.
ghost use Rattle.std.specs.Prelude.{◌≡◌};
ghost use Rattle.memory.specs.Lent.{seen_of};
ghost use Rattle.memory.specs.Reads.{node_at, descriptor_at, word_at};

use crate::address::Address;
use crate::taken::Taken;
use crate::view::Memory;
use records::entries::{Descriptor, Node};
use refusals::refusal::Refusal;

impl Memory<'_> {
    // The node at a place. This and the next name a table each; how a place is found is said once, by `Taken`.
    pub fn node(&self, place: u32) -> Result<Node, Refusal>
        ensures { result ≡ node_at (seen_of self.now) place }
    {
        let nodes = Taken {
            table: self.nodes,
            taken: self.nodes_taken,
        };
        nodes.entry(place).ok_or(Refusal::Torn)
    }

    // The descriptor at a place.
    pub fn descriptor(&self, place: u32) -> Result<Descriptor, Refusal>
        ensures { result ≡ descriptor_at (seen_of self.now) place }
    {
        let descriptors = Taken {
            table: self.descriptors,
            taken: self.descriptors_taken,
        };
        descriptors.entry(place).ok_or(Refusal::Torn)
    }

    // The number of the word at an address.
    pub fn word_at(&self, address: u32) -> Result<u32, Refusal>
        ensures { result ≡ word_at (seen_of self.now) address }
    {
        match Address::try_from(address)? {
            Address::TrayWord(index) => {
                self.words.get(index as usize).copied().ok_or(Refusal::Torn)
            }
            Address::NextWord(place) => Ok(self.node(place)?.next),
        }
    }
}

// A write of one word through the tables.
ghost use Rattle.std.specs.Prelude.{◌≡◌};
ghost use Rattle.memory.specs.Writes.{writes, words_with, nodes_with, shared, Written};

use crate::address::Address;
use records::entries::Node;
use refusals::refusal::Refusal;

// Writes the word at an address; a place that is not taken, and what is no address, is torn and changes nothing. It writes no
// descriptor, and a caller may give another count than the board's: so it takes the two tables and no `MemoryMut`.
pub fn write_word(
    words: &mut [u32],
    nodes: &mut [Node],
    nodes_taken: u32,
    address: u32,
    word: u32,
) -> Result<(), Refusal>
    ensures answer { result ≡ writes words.old nodes.old nodes_taken address }
    ensures words { words.new ≡ words_with words.old address word }
    ensures nodes { nodes.new ≡ nodes_with nodes.old nodes_taken address word }
    ensures law { Written (shared words.old nodes.old nodes_taken) (shared words.new nodes.new nodes_taken) address word result }
{
    match Address::try_from(address)? {
        Address::TrayWord(index) if (index as usize) < words.len() => {
            words[index as usize] = word;
            Ok(())
        }
        Address::NextWord(place)
            if place >= 1 && place <= nodes_taken && place as usize <= nodes.len() => {
            nodes[place as usize - 1].next = word;
            Ok(())
        }
        _ => Err(Refusal::Torn),
    }
}

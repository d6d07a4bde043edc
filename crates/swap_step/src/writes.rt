// The one write of an access.
ghost use Rattle.std.specs.Prelude.{◌≡◌};
ghost use Rattle.memory.specs.Lent.{seen_through, SameTables};
ghost use Rattle.swap_step.specs.Steps.{written};
ghost use Rattle.swap_step.specs.Writes.{results_with};
ghost use Rattle.swap_step.specs.Laws.{held_by, Only};

use memory::memory_mut::MemoryMut;
use memory::writes::write_word;
use records::entries::Descriptor;
use swap_access::effect::Write;
use words::told::LAST_PLACE;

// Writes what an access writes; what stands in no table changes nothing.
pub fn apply(write: Option<Write>, memory: &mut MemoryMut<'_>)
    ensures tables { seen_through memory.new ≡ written write (seen_through memory.old) }
    ensures same { SameTables memory.old memory.new }
    ensures law { Only write (held_by memory.old) (held_by memory.new) }
{
    match write {
        None => {}
        Some(Write::Word { address, word }) => {
            // which places are taken was checked where the access was found
            let _ = write_word(memory.words, memory.nodes, LAST_PLACE, address, word);
        }
        Some(Write::Result { descriptor, result }) => {
            write_result(memory.descriptors, descriptor, result);
        }
    }
}

// Writes the result of the descriptor at a place. A test and an index are plainer here than `get_mut`: its contract tells what
// becomes of the slice by way of the reference that it lends.
pub fn write_result(descriptors: &mut [Descriptor], place: u32, outcome: u32)
    ensures { descriptors.new ≡ results_with descriptors.old place outcome }
{
    let index = place as usize;
    if place >= 1 && index <= descriptors.len() {
        descriptors[index - 1].result = outcome;
    }
}

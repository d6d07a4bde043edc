// One step.
ghost use Rattle.std.specs.Prelude.{◌≡◌};
ghost use Rattle.memory.specs.Lent.{seen_through, SameTables};
ghost use Rattle.swap_step.specs.Steps.{stepped, left};
ghost use Rattle.swap_step.specs.Laws.{held_by, RefusedUnchanged, OneAccess};

use crate::writes::apply;
use memory::memory_mut::MemoryMut;
use refusals::refusal::Refusal;
use swap::dispatch::decide;
use swap_access::position::{Next, Position};

// The step of a scanner that stands at a position; a refusal leaves every table as found.
pub fn step(memory: &mut MemoryMut<'_>, scanner: u32, at: Position) -> Result<Next, Refusal>
    ensures answer { result ≡ stepped (seen_through memory.old) scanner at }
    ensures tables { seen_through memory.new ≡ left (seen_through memory.old) scanner at }
    ensures same { SameTables memory.old memory.new }
    ensures refused { RefusedUnchanged result (held_by memory.old) (held_by memory.new) }
    ensures law { OneAccess (held_by memory.old) (held_by memory.new) }
{
    let effect = decide(&memory.read(), scanner, at)?;
    apply(effect.write, memory);
    Ok(effect.next)
}

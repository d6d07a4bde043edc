// The swaps of one word.
ghost use Rattle.std.specs.Prelude.{◌≡◌};
ghost use Rattle.memory.specs.Lent.{seen_of};
ghost use Rattle.swap_access.specs.Accesses.{swap_word, install, remove};

use crate::effect::{Effect, Write, write_nothing};
use crate::found::found_at;
use crate::position::Next;
use memory::view::Memory;
use records::entries::Swap;
use refusals::refusal::Refusal;
use words::word::Word;

// The swap of one word, and where the scanner stands after it, as the swap succeeds or fails.
#[tactic(auto, unfolding(crate::specs::Accesses::swap_word))]
pub fn swap_word(
    memory: &Memory<'_>,
    swap: Swap,
    done: Next,
    failed: Next,
) -> Result<Effect, Refusal>
    ensures { result ≡ swap_word (seen_of memory.now) swap.address swap.old swap.new done failed }
{
    let Swap { address, old, new } = swap;
    if found_at(memory, address)? != old {
        return Ok(write_nothing(failed));
    }
    Ok(Effect {
        write: Some(Write::Word { address, word: new }),
        next: done,
    })
}

// address: old → new, where the old word is a descriptor's and the new one is the descriptor or a mark of it.
#[tactic(auto, unfolding(crate::specs::Accesses::install))]
pub fn install(
    memory: &Memory<'_>,
    address: u32,
    old: u32,
    new: Word,
    done: Next,
    failed: Next,
) -> Result<Effect, Refusal>
    ensures { result ≡ install (seen_of memory.now) address old new done failed }
{
    let old = memory.plain(old)?;
    let new = u32::try_from(new)?;
    swap_word(memory, Swap { address, old, new }, done, failed)
}

// address: old → new, where the old word is a descriptor or a mark of it and the new one is the descriptor's. The scanner
// goes on alike whether the swap succeeds or fails.
#[tactic(auto, unfolding(crate::specs::Accesses::remove))]
pub fn remove(
    memory: &Memory<'_>,
    address: u32,
    old: Word,
    new: u32,
    next: Next,
) -> Result<Effect, Refusal>
    ensures { result ≡ remove (seen_of memory.now) address old new next }
{
    let old = u32::try_from(old)?;
    let new = memory.plain(new)?;
    swap_word(memory, Swap { address, old, new }, next, next)
}

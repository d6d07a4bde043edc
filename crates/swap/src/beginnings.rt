// How a scanner comes into the swap of a descriptor: its owner publishes it, a helper reads its result.
ghost use Rattle.std.specs.Prelude.{◌≡◌};
ghost use Rattle.memory.specs.Lent.{seen_of};
ghost use Rattle.swap.specs.Beginnings.{at_publish, at_read_result, at_clean};

use memory::meaning::Outcome;
use memory::view::Memory;
use refusals::refusal::Refusal;
use swap_access::accesses::{install, remove};
use swap_access::effect::{Effect, write_nothing};
use swap_access::found::outcome_at;
use swap_access::position::{End, Met, Next, Position};
use words::word::Word;

// p1: o1 → the descriptor.
pub fn at_publish(memory: &Memory<'_>, descriptor: u32) -> Result<Effect, Refusal>
    ensures { result ≡ at_publish (seen_of memory.now) descriptor }
{
    let swap = memory.descriptor(descriptor)?.first;
    install(
        memory,
        swap.address,
        swap.old,
        Word::Descriptor(descriptor),
        Next::At(Position::PlaceMark { descriptor }),
        Next::Ended(End::FirstFailed),
    )
}

// Reads the result: what is decided and finished is only cleaned.
pub fn at_read_result(memory: &Memory<'_>, descriptor: u32, met: Met) -> Result<Effect, Refusal>
    ensures { result ≡ at_read_result (seen_of memory.now) descriptor met }
{
    let next = match outcome_at(memory, descriptor)? {
        Outcome::Success | Outcome::SecondFailed => Position::Clean { descriptor, met },
        Outcome::Undecided | Outcome::DecidedBy(_) => Position::PlaceMark { descriptor },
    };
    Ok(write_nothing(Next::At(next)))
}

// p2: the mark that was met → o2, or p1: the descriptor → o1.
pub fn at_clean(memory: &Memory<'_>, descriptor: u32, met: Met) -> Result<Effect, Refusal>
    ensures { result ≡ at_clean (seen_of memory.now) descriptor met }
{
    let swaps = memory.descriptor(descriptor)?;
    let (swap, word) = match met {
        Met::Descriptor => (swaps.first, Word::Descriptor(descriptor)),
        Met::Mark(scanner) => (
            swaps.second,
            Word::Mark {
                scanner,
                descriptor,
            },
        ),
    };
    remove(
        memory,
        swap.address,
        word,
        swap.old,
        Next::Ended(End::Helped),
    )
}

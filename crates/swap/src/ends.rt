// How the swap of a descriptor ends once it is decided: both addresses get a plain word again.
ghost use Rattle.std.specs.Prelude.{◌≡◌};
ghost use Rattle.memory.specs.Lent.{seen_of};
ghost use Rattle.swap.specs.Ends.{after_decision, at_give_back, at_finish_first, at_finish_second};

use memory::view::Memory;
use refusals::refusal::Refusal;
use swap_access::accesses::remove;
use swap_access::effect::{Effect, end_of};
use swap_access::position::{Next, Position};
use words::word::Word;

// Who placed a mark after the decision takes it away again first.
pub fn after_decision(descriptor: u32, placed: bool, success: bool) -> Next
    ensures { result ≡ after_decision descriptor placed success }
{
    if placed {
        Next::At(Position::Withdraw {
            descriptor,
            success,
        })
    } else {
        end_of(success)
    }
}

// p1: the descriptor → o1.
pub fn at_give_back(memory: &Memory<'_>, descriptor: u32) -> Result<Effect, Refusal>
    ensures { result ≡ at_give_back (seen_of memory.now) descriptor }
{
    let swaps = memory.descriptor(descriptor)?;
    let word = Word::Descriptor(descriptor);
    remove(
        memory,
        swaps.first.address,
        word,
        swaps.first.old,
        end_of(false),
    )
}

// p1: the descriptor → n1.
pub fn at_finish_first(memory: &Memory<'_>, descriptor: u32, winner: u32) -> Result<Effect, Refusal>
    ensures { result ≡ at_finish_first (seen_of memory.now) descriptor winner }
{
    let swap = memory.descriptor(descriptor)?.first;
    let word = Word::Descriptor(descriptor);
    let next = Next::At(Position::FinishSecond { descriptor, winner });
    remove(memory, swap.address, word, swap.new, next)
}

// p2: the mark of the winner → n2.
pub fn at_finish_second(
    memory: &Memory<'_>,
    descriptor: u32,
    winner: u32,
) -> Result<Effect, Refusal>
    ensures { result ≡ at_finish_second (seen_of memory.now) descriptor winner }
{
    let swap = memory.descriptor(descriptor)?.second;
    let mark = Word::Mark {
        scanner: winner,
        descriptor,
    };
    let next = Next::At(Position::WriteSuccess { descriptor, winner });
    remove(memory, swap.address, mark, swap.new, next)
}

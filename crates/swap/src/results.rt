// The result of a descriptor: swapped once from undecided, and written once more after success.
ghost use Rattle.std.specs.Prelude.{◌≡◌};
ghost use Rattle.memory.specs.Lent.{seen_of};
ghost use Rattle.swap.specs.Results.{at_try_to_fail, at_decide, at_write_success};

use crate::ends::after_decision;
use memory::meaning::{Outcome, SECOND_FAILED, SUCCESS};
use memory::view::Memory;
use refusals::refusal::Refusal;
use swap_access::effect::{Effect, Write, end_of, write_nothing};
use swap_access::found::outcome_at;
use swap_access::position::{Next, Position};
use words::word::Word;

// result: undecided → second failed.
pub fn at_try_to_fail(memory: &Memory<'_>, descriptor: u32) -> Result<Effect, Refusal>
    ensures { result ≡ at_try_to_fail (seen_of memory.now) descriptor }
{
    let give_back = Next::At(Position::GiveBack { descriptor });
    Ok(match outcome_at(memory, descriptor)? {
        Outcome::Undecided => Effect {
            write: Some(Write::Result {
                descriptor,
                result: SECOND_FAILED,
            }),
            next: give_back,
        },
        Outcome::SecondFailed => write_nothing(give_back),
        Outcome::Success => write_nothing(end_of(true)),
        Outcome::DecidedBy(winner) => write_nothing(Next::At(Position::FinishFirst {
            descriptor,
            winner,
        })),
    })
}

// result: undecided → the mark in hand.
pub fn at_decide(
    memory: &Memory<'_>,
    descriptor: u32,
    mark: u32,
    placed: bool,
) -> Result<Effect, Refusal>
    ensures { result ≡ at_decide (seen_of memory.now) descriptor mark placed }
{
    let result = u32::try_from(Word::Mark {
        scanner: mark,
        descriptor,
    })?;
    Ok(match outcome_at(memory, descriptor)? {
        Outcome::Undecided => Effect {
            write: Some(Write::Result { descriptor, result }),
            next: Next::At(Position::FinishFirst {
                descriptor,
                winner: mark,
            }),
        },
        Outcome::DecidedBy(winner) => write_nothing(Next::At(Position::FinishFirst {
            descriptor,
            winner,
        })),
        Outcome::Success => write_nothing(after_decision(descriptor, placed, true)),
        Outcome::SecondFailed => write_nothing(after_decision(descriptor, placed, false)),
    })
}

// result: success.
pub fn at_write_success(memory: &Memory<'_>, descriptor: u32) -> Result<Effect, Refusal>
    ensures { result ≡ at_write_success (seen_of memory.now) descriptor }
{
    memory.descriptor(descriptor)?;
    Ok(Effect {
        write: Some(Write::Result {
            descriptor,
            result: SUCCESS,
        }),
        next: end_of(true),
    })
}

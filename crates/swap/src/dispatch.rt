// What the next access of a scanner does, found from what stands in the tables: nothing is written.
ghost use Rattle.std.specs.Prelude.{◌≡◌};
ghost use Rattle.memory.specs.Lent.{seen_of};
ghost use Rattle.swap.specs.Dispatch.{decided, access_at};

use crate::beginnings::{at_clean, at_publish, at_read_result};
use crate::ends::{at_finish_first, at_finish_second, at_give_back};
use crate::marks::{at_place_mark, at_re_read, at_withdraw};
use crate::results::{at_decide, at_try_to_fail, at_write_success};
use memory::view::Memory;
use refusals::refusal::Refusal;
use swap_access::effect::Effect;
use swap_access::position::Position;
use words::told::LAST_SCANNER;

// The access of a scanner that stands at a position; a scanner that can have no mark is torn.
#[tactic(auto, unfolding(crate::specs::Dispatch::decided))]
pub fn decide(memory: &Memory<'_>, scanner: u32, at: Position) -> Result<Effect, Refusal>
    ensures { result ≡ decided (seen_of memory.now) scanner at }
{
    if scanner > LAST_SCANNER {
        return Err(Refusal::Torn);
    }
    access_at(memory, scanner, at)
}

// The access of a scanner at each position. A caller keeps the position between two steps, as a plain value in fixed memory, so it
// is an enum and no closure. Memory and descriptor stay two parameters of the accesses: a struct of the two would be no plainer,
// since every definition takes them apart again.
fn access_at(memory: &Memory<'_>, scanner: u32, at: Position) -> Result<Effect, Refusal>
    ensures { result ≡ access_at (seen_of memory.now) scanner at }
{
    match at {
        Position::Publish { descriptor } => at_publish(memory, descriptor),
        Position::ReadResult { descriptor, met } => at_read_result(memory, descriptor, met),
        Position::Clean { descriptor, met } => at_clean(memory, descriptor, met),
        Position::PlaceMark { descriptor } => at_place_mark(memory, scanner, descriptor),
        Position::ReRead { descriptor } => at_re_read(memory, descriptor),
        Position::TryToFail { descriptor } => at_try_to_fail(memory, descriptor),
        Position::GiveBack { descriptor } => at_give_back(memory, descriptor),
        Position::Decide {
            descriptor,
            mark,
            placed,
        } => at_decide(memory, descriptor, mark, placed),
        Position::FinishFirst { descriptor, winner } => {
            at_finish_first(memory, descriptor, winner)
        }
        Position::FinishSecond { descriptor, winner } => {
            at_finish_second(memory, descriptor, winner)
        }
        Position::WriteSuccess { descriptor, .. } => at_write_success(memory, descriptor),
        Position::Withdraw {
            descriptor,
            success,
        } => at_withdraw(memory, scanner, descriptor, success),
    }
}

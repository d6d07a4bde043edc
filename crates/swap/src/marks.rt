// Marks at the second address.
ghost use Rattle.std.specs.Prelude.{◌≡◌};
ghost use Rattle.memory.specs.Lent.{seen_of};
ghost use Rattle.swap.specs.Marks.{at_place_mark, at_re_read, at_withdraw};

use memory::view::Memory;
use refusals::refusal::Refusal;
use swap_access::accesses::{install, remove};
use swap_access::effect::{Effect, end_of, write_nothing};
use swap_access::found::found_at;
use swap_access::position::{Next, Position};
use words::word::Word;

// p2: o2 → the scanner's own mark.
pub fn at_place_mark(memory: &Memory<'_>, scanner: u32, descriptor: u32) -> Result<Effect, Refusal>
    ensures { result ≡ at_place_mark (seen_of memory.now) scanner descriptor }
{
    let swap = memory.descriptor(descriptor)?.second;
    install(
        memory,
        swap.address,
        swap.old,
        Word::Mark {
            scanner,
            descriptor,
        },
        Next::At(Position::Decide {
            descriptor,
            mark: scanner,
            placed: true,
        }),
        Next::At(Position::ReRead { descriptor }),
    )
}

// Reads p2: a mark of the descriptor, by whichever scanner, is the one to decide with.
pub fn at_re_read(memory: &Memory<'_>, descriptor: u32) -> Result<Effect, Refusal>
    ensures { result ≡ at_re_read (seen_of memory.now) descriptor }
{
    let address = memory.descriptor(descriptor)?.second.address;
    let next = match Word::try_from(found_at(memory, address)?) {
        Ok(
            Word::Mark {
                scanner: mark,
                descriptor: of,
            },
        ) if of == descriptor => Position::Decide {
            descriptor,
            mark,
            placed: false,
        },
        _ => Position::TryToFail { descriptor },
    };
    Ok(write_nothing(Next::At(next)))
}

// p2: the scanner's own mark → o2.
pub fn at_withdraw(
    memory: &Memory<'_>,
    scanner: u32,
    descriptor: u32,
    success: bool,
) -> Result<Effect, Refusal>
    ensures { result ≡ at_withdraw (seen_of memory.now) scanner descriptor success }
{
    let swap = memory.descriptor(descriptor)?.second;
    let mark = Word::Mark {
        scanner,
        descriptor,
    };
    remove(memory, swap.address, mark, swap.old, end_of(success))
}

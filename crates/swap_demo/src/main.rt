// Shows a two-word swap that one scanner begins and another finishes, with what both addresses stand for after each step.
#![tactic(auto)]

use anyhow::bail;
use memory::memory_mut::MemoryMut;
use records::entries::{Descriptor, Node, Swap};
use swap_access::position::{End, Met, Next, Position};
use swap_step::step_once::step;

// Address 0 is to go from node 1 to nil, and address 2 from nil to node 1.
const MOVE: Descriptor = Descriptor {
    first: Swap {
        address: 0,
        old: 1,
        new: 0,
    },
    second: Swap {
        address: 2,
        old: 0,
        new: 1,
    },
    result: 1,
};

// What the word at an address stands for.
fn stands_for(memory: &MemoryMut<'_>, address: u32) -> u32 {
    let memory = memory.read();
    let meant = memory
        .word_at(address)
        .and_then(|word| memory.stands_for(word));
    meant.unwrap_or(0)
}

// At most so many steps of a scanner, each with its line; where it stands then, or none after its end.
fn steps(
    rt: &HostRuntime,
    memory: &mut MemoryMut<'_>,
    scanner: u32,
    from: Position,
    most: u32,
) -> anyhow::Result<Option<Position>> {
    let mut at = from;
    for _ in 0..most {
        let next = match step(memory, scanner, at) {
            Ok(next) => next,
            Err(refusal) => bail!("refused with {refusal}"),
        };
        let first = stands_for(memory, 0);
        let second = stands_for(memory, 2);
        println!(rt; "scanner {scanner}: {at}: 0 stands for {first}, 2 stands for {second}")?;
        match next {
            Next::At(position) => at = position,
            Next::Ended(end) => {
                println!(rt; "scanner {scanner} ends: {end}")?;
                return Ok(None);
            }
        }
    }
    Ok(Some(at))
}

fn run(rt: &HostRuntime) -> anyhow::Result<()> {
    let mut words = [0; 64];
    words[0] = 1;
    let mut memory = MemoryMut {
        words: &mut words,
        nodes: &mut [Node {
            next: 0,
            parcel: 77,
        }],
        nodes_taken: 1,
        descriptors: &mut [MOVE],
        descriptors_taken: 1,
    };
    let begin = Position::Publish { descriptor: 1 };
    let half = steps(rt, &mut memory, 0, begin, 2)?;
    println!(rt; "scanner 1 meets the descriptor at address 0 and helps")?;
    let help = Position::ReadResult {
        descriptor: 1,
        met: Met::Descriptor,
    };
    steps(rt, &mut memory, 1, help, 10)?;
    if let Some(at) = half {
        println!(rt; "scanner 0 goes on")?;
        steps(rt, &mut memory, 0, at, 10)?;
    }
    Ok(())
}

fn main(rt: HostRuntime) -> anyhow::Result<()> {
    run(&rt)
}

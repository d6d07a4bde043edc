// Whole runs of one swap: tray word 0 is to go from node 1 to node 2, and tray word 3 from nil to node 1.
use crate::step_once::step;
use memory::memory_mut::MemoryMut;
use records::entries::{Descriptor, Node, Swap};
use refusals::refusal::Refusal;
use std::process::Abort;
use std::test::Fail;
use swap_access::position::{End, Met, Next, Position};

const SWAPS: Descriptor = Descriptor {
    first: Swap {
        address: 0,
        old: 1,
        new: 2,
    },
    second: Swap {
        address: 3,
        old: 0,
        new: 1,
    },
    result: 1,
};

const OWNER: Position = Position::Publish { descriptor: 1 };

const HELPER: Position = Position::ReadResult {
    descriptor: 1,
    met: Met::Descriptor,
};

// At most so many steps of a scanner, and where it stands then.
fn run(
    memory: &mut MemoryMut<'_>,
    scanner: u32,
    from: Position,
    steps: u32,
) -> Result<Next, Refusal> {
    let mut at = from;
    for _ in 0..steps {
        match step(memory, scanner, at)? {
            Next::At(next) => at = next,
            ended => return Ok(ended),
        }
    }
    Ok(Next::At(at))
}

// The owner alone: so many steps from these tray words to the end, and what they and the result are then.
fn owner_alone(
    rt: &impl Abort,
    before: [u32; 4],
    steps: u32,
    end: End,
    after: [u32; 4],
    outcome: u32,
) -> Result<(), Fail> {
    let mut words = before;
    let mut descriptors = [SWAPS];
    let mut memory = MemoryMut {
        words: &mut words,
        nodes: &mut [Node::ZERO; 2],
        nodes_taken: 2,
        descriptors: &mut descriptors,
        descriptors_taken: 1,
    };
    assert_eq!(rt; run(&mut memory, 0, OWNER, steps)?, Next::Ended(end));
    assert_eq!(rt; words, after);
    assert_eq!(rt; descriptors[0].result, outcome);
    Ok(())
}

#[test]
fn both_words_move_in_six_steps(rt: HostRuntime) -> Result<(), Fail> {
    owner_alone(&rt, [1, 0, 0, 0], 6, End::Success, [2, 0, 0, 1], 2)
}

#[test]
fn a_differing_second_word_restores_the_first(rt: HostRuntime) -> Result<(), Fail> {
    owner_alone(&rt, [1, 0, 0, 2], 5, End::SecondFailed, [1, 0, 0, 2], 3)
}

// Scanner 0 stops before it decides; scanner 1 meets the descriptor and finishes with the mark of scanner 0.
#[test]
fn a_helper_decides_with_the_mark_that_it_found(rt: HostRuntime) -> Result<(), Fail> {
    let mut words = [1, 0, 0, 0];
    let mut descriptors = [SWAPS];
    let mut memory = MemoryMut {
        words: &mut words,
        nodes: &mut [Node::ZERO; 2],
        nodes_taken: 2,
        descriptors: &mut descriptors,
        descriptors_taken: 1,
    };
    let owner = run(&mut memory, 0, OWNER, 2)?;
    let helper = run(&mut memory, 1, HELPER, 4)?;
    let (Next::At(owner), Next::At(helper)) = (owner, helper) else {
        return Err(Fail::new("ended too soon"));
    };
    assert_eq!(rt; &memory.words[..], [65537, 0, 0, 131073].as_slice());
    let outcome = memory.descriptors.first().map(|d| d.result);
    assert_eq!(rt; outcome, Some(131073));
    let helped = run(&mut memory, 1, helper, 3)?;
    assert_eq!(rt; helped, Next::Ended(End::Success));
    let end = run(&mut memory, 0, owner, 2)?;
    assert_eq!(rt; end, Next::Ended(End::Success));
    assert_eq!(rt; words, [2, 0, 0, 1]);
    Ok(())
}

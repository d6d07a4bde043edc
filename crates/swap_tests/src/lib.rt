#![tactic(auto)]

// Every schedule of two scanners, one with a two-word swap of its own and one that helps.
#[cfg(test)]
mod tests {
    use memory::memory_mut::MemoryMut;
    use records::entries::{Descriptor, Node, Swap};
    use refusals::refusal::Refusal;
    use std::process::Abort;
    use std::test::Fail;
    use swap_access::position::{Met, Next, Position};
    use swap_step::step_once::step;
    use words::word::Word;

    // Address 0 is to go from node 1 to nil, and address 2 from nil to node 1.
    const MOVE: Descriptor = Descriptor {
        first: Swap {
            address: 0,
            old: 1,
            new: 0,
        },
        second: Swap {
            address: 2,
            old: 0,
            new: 1,
        },
        result: 1,
    };

    // What the word at an address stands for.
    fn stands_for(memory: &MemoryMut<'_>, address: u32) -> Result<u32, Refusal> {
        let memory = memory.read();
        memory.stands_for(memory.word_at(address)?)
    }

    // Where a scanner begins to help that reads an address; none where it finds nil or a node.
    fn meets(words: &[u32], address: usize) -> Option<Position> {
        let number = words.get(address).copied().unwrap_or(0);
        match Word::try_from(number) {
            Ok(Word::Descriptor(descriptor)) => Some(Position::ReadResult {
                descriptor,
                met: Met::Descriptor,
            }),
            Ok(
                Word::Mark {
                    scanner,
                    descriptor,
                },
            ) => Some(Position::ReadResult {
                descriptor,
                met: Met::Mark(scanner),
            }),
            _ => None,
        }
    }

    // One step of a scanner that stands somewhere, and where it stands then.
    fn advance(
        memory: &mut MemoryMut<'_>,
        scanner: u32,
        at: Option<Position>,
    ) -> Result<Option<Position>, Refusal> {
        let Some(position) = at else {
            return Ok(None);
        };
        match step(memory, scanner, position)? {
            Next::At(next) => Ok(Some(next)),
            Next::Ended(_) => Ok(None),
        }
    }

    // The result of the one descriptor.
    fn outcome(memory: &MemoryMut<'_>) -> u32 {
        memory.descriptors.first().copied().unwrap_or(MOVE).result
    }

    // Plays a schedule: bit k of it says which scanner makes step k. The helper reads address 0 and 2 in turn while it rests.
    // What both addresses stand for changes at one step at most, from the old pair to the new one, and only where the result
    // becomes a mark.
    fn play(
        rt: &impl Abort,
        before: [u32; 4],
        schedule: u32,
        old: (u32, u32),
        new: (u32, u32),
    ) -> Result<(), Fail> {
        let mut words = before;
        let mut memory = MemoryMut {
            words: &mut words,
            nodes: &mut [Node::ZERO; 2],
            nodes_taken: 2,
            descriptors: &mut [MOVE],
            descriptors_taken: 1,
        };
        let mut owner = Some(Position::Publish { descriptor: 1 });
        let mut helper = None;
        let mut now = old;
        for turn in 0..10u32 {
            let before = outcome(&memory);
            if (schedule >> turn) % 2 == 0 {
                owner = advance(&mut memory, 0, owner)?;
            } else if helper.is_none() {
                helper = meets(memory.words, 2 * (turn as usize % 2));
            } else {
                helper = advance(&mut memory, 1, helper)?;
            }
            let after = outcome(&memory);
            let pair = (stands_for(&memory, 0)?, stands_for(&memory, 2)?);
            if pair != now {
                assert!(rt; now == old && pair == new && before == 1 && after > 3);
                now = pair;
            }
        }
        Ok(())
    }

    // All schedules of ten steps, where the second word is the old one, and where it is another.
    #[test]
    fn every_schedule_keeps_both_words_together(rt: HostRuntime) -> Result<(), Fail> {
        for schedule in 0..1024u32 {
            play(&rt, [1, 0, 0, 0], schedule, (1, 0), (0, 1))?;
            play(&rt, [1, 0, 2, 0], schedule, (1, 2), (1, 2))?;
        }
        Ok(())
    }
}

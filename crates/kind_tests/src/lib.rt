#![tactic(auto)]

// Counted examples of undisturbed puts and takes.
#[cfg(test)]
mod tests {
    use kinds::acts::{Found, Notes, PutAct, TakeAct};
    use kinds::addresses::next_word_at;
    use kinds::kind::TrayKind;
    use queue::queue::Queue;
    use records::entries::Swap;
    use stack::stack::Stack;
    use std::process::Abort;
    use std::test::Fail;

    // Node n carries the parcel 100 + n.
    fn found<K: TrayKind>(words: &[u32], address: u32) -> Found {
        let word = word_at(words, address);
        if word == 0 {
            return Found::NOTHING;
        }
        let next = if K::peeks(0) {
            word_at(words, next_word_at(word))
        } else {
            0
        };
        Found {
            word,
            next,
            parcel: word.saturating_add(100),
        }
    }

    fn word_at(words: &[u32], address: u32) -> u32 {
        words.get(address as usize).copied().unwrap_or(0)
    }

    fn swap(words: &mut [u32], swap: Swap) -> bool {
        match words.get_mut(swap.address as usize) {
            Some(word) if *word == swap.old => {
                *word = swap.new;
                true
            }
            _ => false,
        }
    }

    // The accesses of a put of a node into tray 0, its last swap among them.
    fn put_alone<K: TrayKind>(rt: &impl Abort, words: &mut [u32], node: u32) -> Result<u32, Fail> {
        let mut notes = Notes::START;
        for done in 0..20u32 {
            match K::put_act(0, 0, node, notes) {
                PutAct::Read(address) => {
                    notes = K::put_noted(0, notes, found::<K>(words, address));
                    let next = next_word_at(node) as usize;
                    assert!(rt; next < words.len());
                    words[next] = K::fill(0, notes);
                }
                PutAct::Tidy(tidying) => {
                    let _ = swap(words, tidying);
                    notes = K::put_noted(0, notes, Found::NOTHING);
                }
                PutAct::Commit(commit) => {
                    assert!(rt; swap(words, commit));
                    return match K::last_swap(0, 0, node, notes) {
                        Some(last) => {
                            assert!(rt; swap(words, last));
                            Ok(done + 2)
                        }
                        None => Ok(done + 1),
                    };
                }
            }
        }
        Err(Fail::new("no commit"))
    }

    // The accesses of a take from tray 0, and the parcel that it gives.
    fn take_alone<K: TrayKind>(
        rt: &impl Abort,
        words: &mut [u32],
    ) -> Result<(u32, Option<u32>), Fail> {
        let mut notes = Notes::START;
        for done in 0..20u32 {
            match K::take_act(0, 0, notes) {
                TakeAct::Read(address) => {
                    notes = K::take_noted(0, notes, found::<K>(words, address));
                }
                TakeAct::Tidy(tidying) => {
                    let _ = swap(words, tidying);
                    notes = K::take_noted(0, notes, Found::NOTHING);
                }
                TakeAct::Commit {
                    swap: commit,
                    parcel,
                } => {
                    assert!(rt; swap(words, commit));
                    return Ok((done + 1, Some(parcel)));
                }
                TakeAct::Empty => return Ok((done, None)),
            }
        }
        Err(Fail::new("no commit and no finish"))
    }

    // Put into a stack: 2 accesses. The newest parcel comes out first; an empty stack finishes after 1 read.
    #[test]
    fn a_stack(rt: HostRuntime) -> Result<(), Fail> {
        let mut words = [0; 80];
        assert_eq!(rt; put_alone::<Stack>(&rt, &mut words, 1)?, 2);
        assert_eq!(rt; put_alone::<Stack>(&rt, &mut words, 2)?, 2);
        assert_eq!(rt; take_alone::<Stack>(&rt, &mut words)?, (2, Some(102)));
        assert_eq!(rt; take_alone::<Stack>(&rt, &mut words)?, (2, Some(101)));
        assert_eq!(rt; take_alone::<Stack>(&rt, &mut words)?, (1, None));
        Ok(())
    }

    // Put into an empty queue: 5 accesses with its last swap; take from an empty queue: 4. The oldest parcel comes out first.
    #[test]
    fn a_queue(rt: HostRuntime) -> Result<(), Fail> {
        let mut words = [0; 80];
        words[0] = 1;
        words[1] = 1;
        assert_eq!(rt; take_alone::<Queue>(&rt, &mut words)?, (4, None));
        assert_eq!(rt; put_alone::<Queue>(&rt, &mut words, 2)?, 5);
        assert_eq!(rt; put_alone::<Queue>(&rt, &mut words, 3)?, 5);
        assert_eq!(rt; take_alone::<Queue>(&rt, &mut words)?, (5, Some(102)));
        assert_eq!(rt; take_alone::<Queue>(&rt, &mut words)?, (5, Some(103)));
        assert_eq!(rt; take_alone::<Queue>(&rt, &mut words)?, (4, None));
        Ok(())
    }
}

#![tactic(auto)]

// Worked examples of laying out a board.
#[cfg(test)]
mod tests {
    use board::board::Layout;
    use board::tables::LentTables;
    use kinds::pair::Pair;
    use queue::queue::Queue;
    use records::entries::{Descriptor, Node};
    use records::scanner::Scanner;
    use refusals::refusal::Refusal;
    use stack::stack::Stack;
    use std::process::Abort;
    use std::test::Fail;

    type Kinds = Pair<Queue, Stack>;

    // 32 trays, a queue and a stack in turn: they get the numbers 0 to 31.
    fn lay_in_turn(
        rt: &impl Abort,
        layout: &mut Layout<Kinds>,
        tables: &mut LentTables<'_>,
    ) -> Result<(), Fail> {
        for i in 0..32u32 {
            let tray = layout.lay(tables, i % 2)?;
            assert_eq!(rt; tray, i);
        }
        Ok(())
    }

    // 32 trays pass and the 33rd gets 2; the queues' leading nodes are taken upward from 1.
    #[test]
    fn lays_32_trays(rt: HostRuntime) -> Result<(), Fail> {
        let mut words = [9; 64];
        let mut nodes = [Node { next: 7, parcel: 7 }; 40];
        let mut descriptors = [Descriptor::ZERO; 1];
        let mut scanners = [Scanner::ZERO; 16];
        let mut layout: Layout<Kinds> = Layout::begin(
            &mut words,
            &mut nodes,
            &mut descriptors,
            &mut scanners,
        )?;
        let mut tables = LentTables {
            words: &mut words,
            nodes: &mut nodes,
            descriptors: &descriptors,
            scanners: &scanners,
        };
        lay_in_turn(&rt, &mut layout, &mut tables)?;
        let more = layout.lay(&mut tables, 0);
        assert_eq!(rt; more, Err(Refusal::TraysFull));
        assert_eq!(rt; layout.kind_of(30), Some(0));
        assert_eq!(rt; layout.kind_of(31), Some(1));
        assert_eq!(rt; layout.kind_of(32), None);
        assert_eq!(rt; words[0], 1);
        assert_eq!(rt; words[1], 1);
        assert_eq!(rt; words[2], 0);
        assert_eq!(rt; words[60], 16);
        assert_eq!(rt; words[61], 16);
        Ok(())
    }

    // A queue needs a node, a stack does not; tables of another length are refused.
    #[test]
    fn refuses_for_want_of_nodes_and_wrong_lengths(rt: HostRuntime) -> Result<(), Fail> {
        let mut words = [9; 64];
        let mut nodes = [Node::ZERO; 1];
        let mut descriptors = [Descriptor::ZERO; 1];
        let mut scanners = [Scanner::ZERO; 16];
        let mut layout: Layout<Kinds> = Layout::begin(
            &mut words,
            &mut nodes,
            &mut descriptors,
            &mut scanners,
        )?;
        let mut too_short = LentTables {
            words: &mut words[0..63],
            nodes: &mut nodes,
            descriptors: &descriptors,
            scanners: &scanners,
        };
        let short = layout.lay(&mut too_short, 0);
        assert_eq!(rt; short, Err(Refusal::TableLength));
        let mut tables = LentTables {
            words: &mut words,
            nodes: &mut nodes,
            descriptors: &descriptors,
            scanners: &scanners,
        };
        layout.lay(&mut tables, 0)?;
        let full = layout.lay(&mut tables, 0);
        assert_eq!(rt; full, Err(Refusal::NodesFull));
        let stack = layout.lay(&mut tables, 1);
        assert_eq!(rt; stack, Ok(1));
        Ok(())
    }

    // A crew of 0 and of 17 gets 3 and the board comes back; 16 passes.
    #[test]
    fn starts_with_a_crew(rt: HostRuntime) -> Result<(), Fail> {
        let mut words = [9; 64];
        let mut nodes = [Node::ZERO; 1];
        let mut descriptors = [Descriptor::ZERO; 1];
        let mut scanners = [Scanner::ZERO; 16];
        let layout: Layout<Kinds> = Layout::begin(
            &mut words,
            &mut nodes,
            &mut descriptors,
            &mut scanners,
        )?;
        let Err((layout, refusal)) = layout.start(17) else {
            return Err(Fail::new("a crew of 17 started"));
        };
        assert_eq!(rt; refusal, Refusal::CrewSize);
        let Err((layout, _)) = layout.start(0) else {
            return Err(Fail::new("a crew of 0 started"));
        };
        assert!(rt; layout.start(16).is_ok());
        Ok(())
    }
}

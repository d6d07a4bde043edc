// The parcels run from the tray's first word, top, along the next words of its nodes.
ghost use Rattle.stack.specs.Stack.{stack_plan};

use kinds::acts::{Found, Notes, PutAct, TakeAct};
use kinds::addresses::first_word_at as top_at;
use kinds::kind::{Opening, TrayKind};
use records::entries::Swap;

pub struct Stack;

impl Stack {
    // One read and one commit, when undisturbed.
    pub const MOST_ACTS: u32 = 2;
}

impl TrayKind for Stack {
    ghost plan = { λ k. stack_plan };

    fn takes_node(_kind: u32) -> bool {
        false
    }

    fn opening(_kind: u32, _node: u32) -> Opening {
        Opening {
            first: 0,
            second: 0,
        }
    }

    fn peeks(_kind: u32) -> bool {
        true
    }

    fn put_act(_kind: u32, tray: u32, node: u32, notes: Notes) -> PutAct {
        let address = top_at(tray);
        match notes.stage {
            0 => PutAct::Read(address),
            _ => PutAct::Commit(Swap {
                address,
                old: notes.one,
                new: node,
            }),
        }
    }

    fn take_act(_kind: u32, tray: u32, notes: Notes) -> TakeAct {
        let address = top_at(tray);
        match (notes.stage, notes.one) {
            (0, _) => TakeAct::Read(address),
            (_, 0) => TakeAct::Empty,
            _ => TakeAct::Commit {
                swap: Swap {
                    address,
                    old: notes.one,
                    new: notes.two,
                },
                parcel: notes.parcel,
            },
        }
    }

    fn put_noted(_kind: u32, _notes: Notes, found: Found) -> Notes {
        Notes {
            stage: 1,
            one: found.word,
            ..Notes::START
        }
    }

    // As a put, and what is to come to the front, and the parcel.
    fn take_noted(kind: u32, notes: Notes, found: Found) -> Notes {
        Notes {
            two: found.next,
            parcel: found.parcel,
            ..Self::put_noted(kind, notes, found)
        }
    }

    // The node leads on to what was first as the put read.
    fn fill(_kind: u32, notes: Notes) -> u32 {
        notes.one
    }

    fn last_swap(_kind: u32, _tray: u32, _node: u32, _notes: Notes) -> Option<Swap> {
        None
    }

    fn adds_at(_kind: u32, _parcels: &[u32], _parcel: u32) -> usize {
        0
    }

    fn gives_at(_kind: u32, _parcels: &[u32]) -> usize {
        0
    }

    fn most_acts(_kind: u32) -> u32 {
        Stack::MOST_ACTS
    }

    fn show_points() {}
}

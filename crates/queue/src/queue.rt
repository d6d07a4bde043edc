// A queue: its words, head and tail, name a leading node that carries no parcel. A put links its node behind the last one, and
// then tail is set right; a take makes head's next node the leading one.
ghost use Rattle.std.specs.Prelude.{◌≡◌};
ghost use Rattle.queue.specs.Queue.{tail_at, queue_plan};

use kinds::acts::{Found, Notes, PutAct, TakeAct};
use kinds::addresses::{
    first_word_at as head_at, next_word_at as next_at, second_word_at as tail_at,
};
use kinds::kind::{Opening, TrayKind};
use records::entries::Swap;

// the word that names no node
const NIL: u32 = 0;

pub struct Queue;

impl Queue {
    // From a start to a commit or a finish, when undisturbed: two rounds, the first of which sets tail right.
    pub const MOST_ACTS: u32 = 10;
}

// Sets tail right, from the node `old` to the node `new` behind it.
fn tail_swap(tray: u32, old: u32, new: u32) -> Swap
    ensures { result ≡ record { address = tail_at tray; old = old; new = new } }
{
    Swap {
        address: tail_at(tray),
        old,
        new,
    }
}

// The notes of a stage at which the words `one` and `two` were read, and nothing else is noted.
fn noted(stage: u32, one: u32, two: u32) -> Notes
    ensures { result ≡ record { stage = stage; one = one; two = two; three = 0; parcel = 0 } }
{
    Notes {
        stage,
        one,
        two,
        ..Notes::START
    }
}

impl TrayKind for Queue {
    ghost plan = { λ k. queue_plan };

    fn takes_node(_kind: u32) -> bool {
        true
    }

    fn opening(_kind: u32, node: u32) -> Opening {
        Opening {
            first: node,
            second: node,
        }
    }

    fn peeks(_kind: u32) -> bool {
        false
    }

    fn put_act(_kind: u32, tray: u32, node: u32, notes: Notes) -> PutAct {
        match notes.stage {
            0 | 2 => PutAct::Read(tail_at(tray)),
            1 => PutAct::Read(next_at(notes.one)),
            _ if notes.two == NIL => PutAct::Commit(Swap {
                address: next_at(notes.one),
                old: NIL,
                new: node,
            }),
            _ => PutAct::Tidy(tail_swap(tray, notes.one, notes.two)),
        }
    }

    fn take_act(_kind: u32, tray: u32, notes: Notes) -> TakeAct {
        match notes.stage {
            0 | 3 => TakeAct::Read(head_at(tray)),
            1 => TakeAct::Read(tail_at(tray)),
            2 => TakeAct::Read(next_at(notes.one)),
            _ if notes.three == NIL => TakeAct::Empty,
            _ if notes.one == notes.two => TakeAct::Tidy(tail_swap(tray, notes.one, notes.three)),
            _ => TakeAct::Commit {
                swap: Swap {
                    address: head_at(tray),
                    old: notes.one,
                    new: notes.three,
                },
                parcel: notes.parcel,
            },
        }
    }

    // Where the second read of tail finds another node, the next word that was noted may be out of date.
    fn put_noted(_kind: u32, notes: Notes, found: Found) -> Notes {
        match notes.stage {
            0 => noted(1, found.word, NIL),
            1 => noted(2, notes.one, found.word),
            2 if found.word == notes.one => noted(3, notes.one, notes.two),
            _ => Notes::START,
        }
    }

    fn take_noted(_kind: u32, notes: Notes, found: Found) -> Notes {
        match notes.stage {
            0 => noted(1, found.word, NIL),
            1 => noted(2, notes.one, found.word),
            2 => Notes {
                stage: 3,
                three: found.word,
                parcel: found.parcel,
                ..notes
            },
            3 if found.word == notes.one => Notes { stage: 4, ..notes },
            _ => Notes::START,
        }
    }

    // A put's node is the last one, so its next word stays nil.
    fn fill(_kind: u32, _notes: Notes) -> u32 {
        NIL
    }

    fn last_swap(_kind: u32, tray: u32, node: u32, notes: Notes) -> Option<Swap> {
        Some(tail_swap(tray, notes.one, node))
    }

    fn adds_at(_kind: u32, parcels: &[u32], _parcel: u32) -> usize {
        parcels.len()
    }

    fn gives_at(_kind: u32, _parcels: &[u32]) -> usize {
        0
    }

    fn most_acts(_kind: u32) -> u32 {
        Queue::MOST_ACTS
    }

    fn show_points() {}
}

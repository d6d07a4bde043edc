// A kind of tray. One type may stand for several kinds, which the kind number tells apart.
ghost use Rattle.std.specs.Prelude.{◌≡◌, ℕ};
ghost use Rattle.kinds.specs.Plans.{Plan};
ghost use Rattle.kinds.specs.Points.{Points};

use crate::acts::{Found, Notes, PutAct, TakeAct};
use records::entries::Swap;

// The two words of a tray as its kind opens it.
#[derive(Clone, Copy, PartialEq, Eq, Debug)]
pub struct Opening {
    pub first: u32,
    pub second: u32,
}

// Kind number, tray, node and notes are what a kind may go by, each function by some of them: so they are no struct.
pub trait TrayKind {
    // what the functions below answer, and what they mean, by kind number
    ghost plan: { ℕ → Plan };

    // Whether opening a tray takes a node.
    fn takes_node(kind: u32) -> bool
        ensures { result ≡ (plan kind).takes_node };

    // The tray's words after opening; `node` is the node that was taken, if one was.
    fn opening(kind: u32, node: u32) -> Opening
        ensures { result ≡ record { first = (plan kind).first node; second = (plan kind).second node } };

    // Whether a read that finds a node also reads its next word privately.
    fn peeks(kind: u32) -> bool
        ensures { result ≡ (plan kind).peeks };

    // The next act of a put of a node, and of a take.
    fn put_act(kind: u32, tray: u32, node: u32, notes: Notes) -> PutAct
        ensures { result ≡ (plan kind).put_act tray node notes };

    fn take_act(kind: u32, tray: u32, notes: Notes) -> TakeAct
        ensures { result ≡ (plan kind).take_act tray notes };

    // The notes after what an act found; a tidying swap finds nothing.
    fn put_noted(kind: u32, notes: Notes, found: Found) -> Notes
        ensures { result ≡ (plan kind).put_noted notes found };

    fn take_noted(kind: u32, notes: Notes, found: Found) -> Notes
        ensures { result ≡ (plan kind).take_noted notes found };

    // What a put fills its own node's next word with, after a read.
    fn fill(kind: u32, notes: Notes) -> u32
        ensures { result ≡ (plan kind).fill notes };

    // The tidying swap that is left to a put after its success, if any.
    fn last_swap(kind: u32, tray: u32, node: u32, notes: Notes) -> Option<Swap>
        ensures { result ≡ (plan kind).last_swap tray node notes };

    // The plain rule: the place at which a put adds its parcel to those that are there, counted from 0, and the place of the
    // parcel that a take gives and removes.
    fn adds_at(kind: u32, parcels: &[u32], parcel: u32) -> usize
        ensures { result ≡ (plan kind).rule.adds_at parcel parcels.now };

    fn gives_at(kind: u32, parcels: &[u32]) -> usize
        ensures { result ≡ (plan kind).rule.gives_at parcels.now };

    // The most acts from a start to a commit or a finish, when undisturbed.
    fn most_acts(kind: u32) -> u32
        ensures { result ≡ (plan kind).most };

    // The law of kinds: what every kind shows, of everything that can have come about at a tray. It does nothing when it runs.
    fn show_points()
        ensures { (k : ℕ) → Points (plan k) };
}

// Two kinds as one: number 0 is the first, and j + 1 is number j of the second.
ghost use Rattle.kinds.specs.Plans.{pick};

use crate::acts::{Found, Notes, PutAct, TakeAct};
use crate::kind::{Opening, TrayKind};
use records::entries::Swap;
use std::marker::PhantomData;

// No value of it is needed: a kind is used by its type.
pub struct Pair<A, B>(PhantomData<(A, B)>);

// Asks the kind that has the number: the first as its number 0, or the second by its own number.
macro_rules! ask {
    ($kind:ident, $function:ident $(, $argument:ident)*) => {
        if $kind == 0 {
            A::$function(0 $(, $argument)*)
        } else {
            B::$function($kind - 1 $(, $argument)*)
        }
    };
}

impl<A: TrayKind, B: TrayKind> TrayKind for Pair<A, B> {
    ghost plan = { pick A.TrayKind.plan B.TrayKind.plan };

    fn takes_node(kind: u32) -> bool {
        ask!(kind, takes_node)
    }

    fn opening(kind: u32, node: u32) -> Opening {
        ask!(kind, opening, node)
    }

    fn peeks(kind: u32) -> bool {
        ask!(kind, peeks)
    }

    fn put_act(kind: u32, tray: u32, node: u32, notes: Notes) -> PutAct {
        ask!(kind, put_act, tray, node, notes)
    }

    fn take_act(kind: u32, tray: u32, notes: Notes) -> TakeAct {
        ask!(kind, take_act, tray, notes)
    }

    fn put_noted(kind: u32, notes: Notes, found: Found) -> Notes {
        ask!(kind, put_noted, notes, found)
    }

    fn take_noted(kind: u32, notes: Notes, found: Found) -> Notes {
        ask!(kind, take_noted, notes, found)
    }

    fn fill(kind: u32, notes: Notes) -> u32 {
        ask!(kind, fill, notes)
    }

    fn last_swap(kind: u32, tray: u32, node: u32, notes: Notes) -> Option<Swap> {
        ask!(kind, last_swap, tray, node, notes)
    }

    fn adds_at(kind: u32, parcels: &[u32], parcel: u32) -> usize {
        ask!(kind, adds_at, parcels, parcel)
    }

    fn gives_at(kind: u32, parcels: &[u32]) -> usize {
        ask!(kind, gives_at, parcels)
    }

    fn most_acts(kind: u32) -> u32 {
        ask!(kind, most_acts)
    }

    fn show_points() {
        A::show_points();
        B::show_points();
    }
}

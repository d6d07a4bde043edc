// The records of the node table and of the descriptor table.

// A node of a tray: the word that leads on from it, and a parcel's number. The tables are lent memory, so a word is a number
// that names a place, and no reference.
#[derive(Clone, Copy, PartialEq, Eq, Debug)]
pub struct Node {
    pub next: u32,
    pub parcel: u32,
}

// One compare-and-swap: `old` is to become `new` at an address.
#[derive(Clone, Copy, PartialEq, Eq, Debug)]
pub struct Swap {
    pub address: u32,
    pub old: u32,
    pub new: u32,
}

// A two-word swap: both swaps take effect, or neither. The result is 1 while undecided, 2 after success, 3 where the
// second swap failed, or the number of one of the descriptor's marks: decided by that mark.
#[derive(Clone, Copy, PartialEq, Eq, Debug)]
pub struct Descriptor {
    pub first: Swap,
    pub second: Swap,
    pub result: u32,
}

impl Node {
    pub const ZERO: Node = Node { next: 0, parcel: 0 };
}

impl Swap {
    pub const ZERO: Swap = Swap {
        address: 0,
        old: 0,
        new: 0,
    };
}

impl Descriptor {
    pub const ZERO: Descriptor = Descriptor {
        first: Swap::ZERO,
        second: Swap::ZERO,
        result: 0,
    };
}

// Where a scanner stands in a two-word swap.

// What a helper met that made it help. Both cases were met, so it is no Option: `None` would not say what.
#[derive(Clone, Copy, PartialEq, Eq, Debug)]
pub enum Met {
    // the descriptor, at its first address
    Descriptor,
    // the mark of this scanner, at the second address
    Mark(u32),
}

// A position in the swap of a descriptor. Each is one access, written below as "address: old → new": p1, o1 and n1 are of
// the descriptor's first swap, p2, o2 and n2 of its second. Whether the scanner owns the swap or helps, its caller knows.
#[derive(Clone, Copy, PartialEq, Eq, Debug)]
pub enum Position {
    // p1: o1 → the descriptor; the owner begins here
    Publish {
        descriptor: u32,
    },
    // a read of the result; a helper begins here
    ReadResult {
        descriptor: u32,
        met: Met,
    },
    // p2: the mark that was met → o2, or p1: the descriptor → o1
    Clean {
        descriptor: u32,
        met: Met,
    },
    // p2: o2 → the scanner's own mark
    PlaceMark {
        descriptor: u32,
    },
    // a read of p2
    ReRead {
        descriptor: u32,
    },
    // result: undecided → second failed
    TryToFail {
        descriptor: u32,
    },
    // p1: the descriptor → o1
    GiveBack {
        descriptor: u32,
    },
    // result: undecided → the mark of the scanner `mark`; placed: that is the own mark, which now stands at p2. The mark is
    // needed in both cases, so the flag is no Option of it.
    Decide {
        descriptor: u32,
        mark: u32,
        placed: bool,
    },
    // p1: the descriptor → n1
    FinishFirst {
        descriptor: u32,
        winner: u32,
    },
    // p2: the mark of the winner → n2
    FinishSecond {
        descriptor: u32,
        winner: u32,
    },
    // result: success
    WriteSuccess {
        descriptor: u32,
        winner: u32,
    },
    // p2: the scanner's own mark → o2, and then the end that was found: success or second failed. A flag, since an `End` could also be
    // one of the two that do not come here.
    Withdraw {
        descriptor: u32,
        success: bool,
    },
}

// How the swap ended. Helped: the cleaning swap ended a help; a help may have the ends Success and SecondFailed too.
#[derive(Clone, Copy, PartialEq, Eq, Debug)]
pub enum End {
    FirstFailed,
    Success,
    SecondFailed,
    Helped,
}

// Where the scanner stands after an access. No Result and no ControlFlow: an end is no error, and most ends are what was wanted.
#[derive(Clone, Copy, PartialEq, Eq, Debug)]
pub enum Next {
    At(Position),
    Ended(End),
}

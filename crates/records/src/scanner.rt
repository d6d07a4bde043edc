// A scanner's record: its requests as the board keeps them.
ghost use Rattle.std.specs.Prelude.{◌≡◌};
ghost use Rattle.records.specs.Looks.{look_number};

// What a request asks for.
#[derive(Clone, Copy, PartialEq, Eq, Debug)]
pub enum Wish {
    Put { tray: u32, parcel: u32 },
    Take { tray: u32 },
    Move { from: u32, to: u32 },
}

// What a look tells of a scanner's last request. `None` is the first of the five numbered states of a look, so the type is no Option.
// Worn: its move failed and no descriptor was left to try again.
#[derive(Clone, Copy, PartialEq, Eq, Debug)]
pub enum Look {
    None,
    InWork,
    WithParcel(u32),
    Empty,
    Worn,
}

// `last` is the number of the last request, 0 before the first, and `heard` the highest number whose acknowledgement was sent.
#[derive(Clone, Copy, PartialEq, Eq, Debug)]
pub struct Scanner {
    pub last: u32,
    pub heard: u32,
    pub wish: Option<Wish>,
    pub look: Look,
}

impl Scanner {
    pub const ZERO: Scanner = Scanner {
        last: 0,
        heard: 0,
        wish: None,
        look: Look::None,
    };
}

impl From<Look> for u32 {
    ghost from_gives = { λ l n. n ≡ look_number l };

    // The number that is printed.
    fn from(look: Look) -> u32 {
        match look {
            Look::None => 0,
            Look::InWork => 1,
            Look::WithParcel(_) => 2,
            Look::Empty => 3,
            Look::Worn => 4,
        }
    }
}

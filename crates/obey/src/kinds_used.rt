// The kinds of tray that the program has. They are named here and nowhere else. A tray's kind is picked by its number in the
// nested pairs, so the numbers are constants and no enum.
use kinds::pair::Pair;
use queue::queue::Queue;
use stack::stack::Stack;

pub type Kinds = Pair<Queue, Stack>;

pub const QUEUE: u32 = 0;

pub const STACK: u32 = 1;

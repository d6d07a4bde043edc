// What an order asks for.
#[derive(Clone, Copy, PartialEq, Eq, Debug)]
pub enum Order {
    // lay a tray that is a queue
    LayQueue,
    // lay a tray that is a stack
    LayStack,
    // start the day with a crew of scanners
    Start { crew: u32 },
}

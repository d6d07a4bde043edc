// What a 32-bit word of the shared tables can say.
#[derive(Clone, Copy, PartialEq, Eq, Debug)]
pub enum Word {
    // no node: the end of a chain
    Nil,
    // the node at this place
    Node(u32),
    // a two-word swap in progress: this descriptor, at its first address
    Descriptor(u32),
    // a two-word swap in progress: a scanner's mark of this descriptor, at its second address
    Mark { scanner: u32, descriptor: u32 },
}

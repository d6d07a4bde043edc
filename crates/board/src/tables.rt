// The four tables, lent together to a call that writes tray words and nodes, and only reads the rest. The beginning of a board
// writes all four, so it takes them one by one.
use records::entries::{Descriptor, Node};
use records::scanner::Scanner;

#[derive(Drop)]
pub struct LentTables<'a> {
    pub words: &'a mut [u32],
    pub nodes: &'a mut [Node],
    pub descriptors: &'a [Descriptor],
    pub scanners: &'a [Scanner],
}

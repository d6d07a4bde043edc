// Places of the node table and of the descriptor table, taken by a board: both by the one generic table of places. The two
// functions name a table and a refusal each.
ghost use Rattle.std.specs.Prelude.{◌≡◌, length};
ghost use Rattle.board.specs.Takes.{takes_node, numbers_with_node, nodes_with_node, takes_descriptor, numbers_with_descriptor, descriptors_with_descriptor};

use crate::board::Board;
use records::entries::{Descriptor, Node};
use refusals::refusal::Refusal;

impl Board {
    // Takes the next node, set to zero.
    pub(crate) fn take_node(&mut self, nodes: &mut [Node]) -> Result<u32, Refusal>
        requires { length nodes.old ≡ self.old.nodes.room }
        ensures answer { result ≡ takes_node self.old }
        ensures board { self.new ≡ numbers_with_node self.old }
        ensures table { nodes.new ≡ nodes_with_node self.old nodes.old }
    {
        self.nodes.take(nodes, Node::ZERO).ok_or(Refusal::NodesFull)
    }

    // Takes the next descriptor, set to zero.
    pub(crate) fn take_descriptor(&mut self, descriptors: &mut [Descriptor]) -> Result<u32, Refusal>
        requires { length descriptors.old ≡ self.old.descriptors.room }
        ensures answer { result ≡ takes_descriptor self.old }
        ensures board { self.new ≡ numbers_with_descriptor self.old }
        ensures table { descriptors.new ≡ descriptors_with_descriptor self.old descriptors.old }
    {
        self.descriptors
            .take(descriptors, Descriptor::ZERO)
            .ok_or(Refusal::DescriptorsFull)
    }
}

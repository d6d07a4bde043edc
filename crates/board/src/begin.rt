// The beginning of a board: four lent tables of the right lengths, all set to zero.
ghost use Rattle.std.specs.Prelude.{◌≡◌};
ghost use Rattle.records.specs.Tables.{tables};
ghost use Rattle.board.specs.Begins.{begins, zeroed};

use crate::board::{Board, Layout, SCANNERS, TRAY_WORDS};
use crate::room::Room;
use records::entries::{Descriptor, Node};
use records::scanner::Scanner;
use refusals::refusal::Refusal;
use std::marker::PhantomData;

impl<K> Layout<K> {
    // An empty board over these tables, which are set to zero; tables of other lengths are refused and left as they are. No other
    // call writes all four tables, so they are no `LentTables` here.
    pub fn begin(
        words: &mut [u32],
        nodes: &mut [Node],
        descriptors: &mut [Descriptor],
        scanners: &mut [Scanner],
    ) -> Result<Layout<K>, Refusal>
        ensures answer { result ≡ begins (tables words.old nodes.old descriptors.old scanners.old) }
        ensures after { tables words.new nodes.new descriptors.new scanners.new ≡ zeroed (tables words.old nodes.old descriptors.old scanners.old) }
    {
        if words.len() != TRAY_WORDS || scanners.len() != SCANNERS {
            return Err(Refusal::TableLength);
        }
        let board = Board {
            trays: 0,
            crew: 0,
            kinds: 0,
            nodes: Room::of(nodes)?,
            descriptors: Room::of(descriptors)?,
        };
        words.fill(0);
        nodes.fill(Node::ZERO);
        descriptors.fill(Descriptor::ZERO);
        scanners.fill(Scanner::ZERO);
        Ok(Layout {
            board,
            kind: PhantomData,
        })
    }
}

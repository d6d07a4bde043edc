// Laying a tray: it takes the next tray number and is opened by its kind.
ghost use Rattle.std.specs.Prelude.{◌≡◌};
ghost use Rattle.board.specs.Numbers.{fits};
ghost use Rattle.board.specs.Laws.{Laying};
ghost use Rattle.board.specs.Lays.{laid, lays};
ghost use Rattle.board.specs.Lent.{held, SameTables};

use crate::board::{Board, Layout, MOST_TRAYS, SCANNERS, TRAY_WORDS};
use crate::kinds_laid::LAST_KIND;
use crate::tables::LentTables;
use kinds::kind::TrayKind;
use refusals::refusal::Refusal;

impl Board {
    // Whether the tables have the lengths that the board was begun with.
    pub(crate) fn fits(&self, tables: &LentTables<'_>) -> bool
        ensures { result ≡ fits self.now (held tables.now) }
    {
        tables.words.len() == TRAY_WORDS
            && tables.scanners.len() == SCANNERS
            && tables.nodes.len() == self.nodes.room as usize
            && tables.descriptors.len() == self.descriptors.room as usize
    }
}

impl<K: TrayKind> Layout<K> {
    // Lays one more tray of a kind and answers its number. A refusal leaves the board and the tables as they are.
    pub fn lay(&mut self, tables: &mut LentTables<'_>, kind: u32) -> Result<u32, Refusal>
        ensures after { laid result self.new (held tables.new) ≡ lays K.TrayKind.plan self.old (held tables.old) kind }
        ensures same { SameTables tables.old tables.new }
        ensures law { Laying kind self.old self.new (held tables.old) (held tables.new) result }
    {
        K::show_points();
        let kind = kind.min(LAST_KIND);
        let board = &mut self.board;
        let tray = board.trays;
        if !board.fits(tables) {
            return Err(Refusal::TableLength);
        }
        if tray >= MOST_TRAYS {
            return Err(Refusal::TraysFull);
        }
        let node = if K::takes_node(kind) {
            board.take_node(tables.nodes)?
        } else {
            0
        };
        let opening = K::opening(kind, node);
        tables.words[2 * tray as usize] = opening.first;
        tables.words[2 * tray as usize + 1] = opening.second;
        board.add_tray(kind);
        Ok(tray)
    }
}

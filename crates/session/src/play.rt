// A whole session.
ghost use Rattle.std.specs.Prelude.{◌≡◌, [], ◌∷◌};
ghost use Rattle.refusals.specs.Numbers.{number_of};
ghost use Rattle.lines.specs.Lines.{line_of};
ghost use Rattle.lines.specs.Places.{end_at, written_at};
ghost use Rattle.records.specs.Tables.{tables};
ghost use Rattle.index.specs.Opened.{texts_of};
ghost use Rattle.board.specs.Lent.{held, SameTables};
ghost use Rattle.session.specs.Laws.{Shows};
ghost use Rattle.session.specs.Plays.{state, ended, broken, damaged, orders_from, plays, session_of};

use crate::fault::{Played, SessionFault};
use board::board::{Layout, SCANNERS, TRAY_WORDS};
use board::tables::LentTables;
use index::file::SessionFile;
use lines::{Line, put};
use obey::carry_out::carry_out;
use obey::kinds_used::Kinds;
use obey::phase::Phase;
use obey::print::print_reply;
use records::entries::{Descriptor, Node};
use records::scanner::Scanner;
use refusals::refusal::Refusal;

// How many nodes and descriptors the program's tables have.
const NODES: usize = 1000;

const DESCRIPTORS: usize = 1000;

// The session's end: what was written stays written.
fn ended_by(order: u32, cause: Refusal, written: usize) -> Played
    ensures { result ≡ broken order cause written }
{
    Played {
        written,
        fault: Some(SessionFault { order, cause }),
    }
}

// Carries out the orders one after the other and prints a line for each, up to the first line that does not fit.
fn play_orders(
    file: SessionFile,
    layout: Layout<Kinds>,
    out: &mut [u8],
    start: usize,
    tables: &mut LentTables<'_>,
) -> Played
    ensures answer { ended result out.new (held tables.new) ≡ orders_from 1 (texts_of file.entry) (state (Phase.LaidOut layout) (held tables.old) start out.old) }
    ensures same { SameTables tables.old tables.new }
{
    let mut at = start;
    let mut phase = Phase::LaidOut(layout);
    for (order, text) in (1u32..).zip(file.texts()) {
        let obeyed = carry_out(phase, text, tables);
        phase = obeyed.phase;
        match print_reply(out, at, order, obeyed.reply) {
            Ok(end) => at = end,
            Err(cause) => return ended_by(order, cause, at),
        }
    }
    Played {
        written: at,
        fault: None,
    }
}

// A damaged session file: one line says so.
fn print_damage(out: &mut [u8], at: usize, refusal: Refusal) -> Played
    ensures answer { result ≡ damaged (end_at out.old at (line_of 0 (number_of refusal ∷ []))) refusal at }
    ensures after { out.new ≡ written_at out.old at (line_of 0 (number_of refusal ∷ [])) }
{
    match put(out, at, Line::new(0, &[u32::from(refusal)])) {
        Ok(end) => ended_by(0, refusal, end),
        Err(cause) => ended_by(0, cause, at),
    }
}

// Begins a board over the tables, prints the heading, and plays the orders of the file.
fn play_on(
    bytes: &[u8],
    out: &mut [u8],
    words: &mut [u32],
    nodes: &mut [Node],
    descriptors: &mut [Descriptor],
    scanners: &mut [Scanner],
) -> Played
    ensures { ended result out.new (tables words.new nodes.new descriptors.new scanners.new) ≡ plays bytes.now out.old (tables words.old nodes.old descriptors.old scanners.old) }
{
    // an early end is an answer that counts what was written, and no error: so `?` does not fit
    let layout = match Layout::begin(words, nodes, descriptors, scanners) {
        Ok(layout) => layout,
        Err(cause) => return ended_by(0, cause, 0),
    };
    let at = match put(out, 0, b"DAY\n") {
        Ok(end) => end,
        Err(cause) => return ended_by(0, cause, 0),
    };
    match SessionFile::open(bytes) {
        Ok(file) => {
            let mut tables = LentTables {
                words,
                nodes,
                descriptors,
                scanners,
            };
            play_orders(file, layout, out, at, &mut tables)
        }
        Err(refusal) => print_damage(out, at, refusal),
    }
}

// Plays the session that the bytes are, on a board with 1,000 nodes and 1,000 descriptors, and prints into `out`.
pub fn play(bytes: &[u8], out: &mut [u8]) -> Played
    ensures answer { result ≡ (session_of bytes.now out.old).answer }
    ensures after { out.new ≡ (session_of bytes.now out.old).out }
    ensures law { Shows bytes.now out.old out.new result }
{
    let mut words = [0; TRAY_WORDS];
    let mut nodes = [Node::ZERO; NODES];
    let mut descriptors = [Descriptor::ZERO; DESCRIPTORS];
    let mut scanners = [Scanner::ZERO; SCANNERS];
    play_on(
        bytes,
        out,
        &mut words,
        &mut nodes,
        &mut descriptors,
        &mut scanners,
    )
}

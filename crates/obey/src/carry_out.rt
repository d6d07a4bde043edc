// One order, carried out on the board.
ghost use Rattle.std.specs.Prelude.{◌≡◌, Err};
ghost use Rattle.board.specs.Lent.{held, SameTables};
ghost use Rattle.obey.specs.Obeys.{did, lays_in, starts_in, obeys};

use crate::kinds_used::{QUEUE, STACK};
use crate::phase::{Obeyed, Phase, Reply};
use board::tables::LentTables;
use orders::order::Order;
use orders::read_order;
use refusals::refusal::Refusal;

impl Obeyed {
    // A refused order, and the board in the phase that it was in.
    fn refused(phase: Phase, refusal: Refusal) -> Obeyed
        ensures { result ≡ record { phase = phase; reply = Err refusal } }
    {
        Obeyed {
            phase,
            reply: Err(refusal),
        }
    }
}

// Lays a tray while the board is laid out.
fn lay_tray(phase: Phase, kind: u32, tables: &mut LentTables<'_>) -> Obeyed
    ensures after { did result (held tables.new) ≡ lays_in phase kind (held tables.old) }
    ensures same { SameTables tables.old tables.new }
{
    match phase {
        Phase::LaidOut(mut layout) => {
            let reply = layout.lay(tables, kind).map(Reply::Laid);
            Obeyed {
                phase: Phase::LaidOut(layout),
                reply,
            }
        }
        started => Obeyed::refused(started, Refusal::OutOfPhase),
    }
}

// Starts the board while it is laid out.
fn start_board(phase: Phase, crew: u32) -> Obeyed
    ensures { result ≡ starts_in phase crew }
{
    match phase {
        Phase::LaidOut(layout) => match layout.start(crew) {
            Ok(running) => Obeyed {
                phase: Phase::Running(running),
                reply: Ok(Reply::Started),
            },
            Err((layout, refusal)) => Obeyed::refused(Phase::LaidOut(layout), refusal),
        },
        running => Obeyed::refused(running, Refusal::OutOfPhase),
    }
}

// Carries out the order that the text says.
pub fn carry_out(phase: Phase, text: &[u8], tables: &mut LentTables<'_>) -> Obeyed
    ensures after { did result (held tables.new) ≡ obeys phase text.now (held tables.old) }
    ensures same { SameTables tables.old tables.new }
{
    match read_order(text) {
        Ok(Order::LayQueue) => lay_tray(phase, QUEUE, tables),
        Ok(Order::LayStack) => lay_tray(phase, STACK, tables),
        Ok(Order::Start { crew }) => start_board(phase, crew),
        Err(refusal) => Obeyed::refused(phase, refusal),
    }
}

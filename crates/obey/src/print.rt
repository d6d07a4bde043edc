// The line that is printed for an order.
ghost use Rattle.std.specs.Prelude.{◌≡◌};
ghost use Rattle.lines.specs.Lines.{line_of};
ghost use Rattle.lines.specs.Places.{end_at, written_at};
ghost use Rattle.obey.specs.Prints.{values};

use crate::phase::Reply;
use lines::{Line, put};
use refusals::refusal::Refusal;

// The order's number, 0 or the refusal's number, and the values of an answer, into what is left of the output from `at` on.
pub fn print_reply(
    out: &mut [u8],
    at: usize,
    order: u32,
    reply: Result<Reply, Refusal>,
) -> Result<usize, Refusal>
    ensures answer { result ≡ end_at out.old at (line_of order (values reply)) }
    ensures after { out.new ≡ written_at out.old at (line_of order (values reply)) }
{
    match reply {
        Ok(Reply::Laid(tray)) => put(out, at, Line::new(order, &[0, tray])),
        Ok(Reply::Started) => put(out, at, Line::new(order, &[0])),
        Err(refusal) => put(out, at, Line::new(order, &[u32::from(refusal)])),
    }
}

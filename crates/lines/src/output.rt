// What is printed, written into what is left of an output from a place on, whole or not at all.
// The rest of the output is lent on to the writer at its front.
ghost use Rattle.std.specs.Prelude.{◌≡◌, ◌≤◌, length, IfOk};
ghost use Rattle.lines.specs.Places.{end_at, written_at};

use crate::printed::Printed;
use refusals::refusal::Refusal;

// Writes it from `at` on, and answers where it ends. What does not fit stays unwritten.
pub fn put<T: Printed>(out: &mut [u8], at: usize, what: T) -> Result<usize, Refusal>
    ensures answer { result ≡ end_at out.old at (T.bytes what) }
    ensures after { out.new ≡ written_at out.old at (T.bytes what) }
    ensures within { IfOk result (λ end. end ≤ length out.old) }
{
    if out.len() < at {
        return Err(Refusal::OutputFull);
    }
    let length = what.put_at_front(&mut out[at..])?;
    Ok(at + length)
}

// A text, which prints as it stands.
ghost use Rattle.std.specs.Prelude.{◌≡◌};

use crate::printed::Printed;
use refusals::refusal::Refusal;

impl Printed for &[u8] {
    ghost bytes = { λ text. text.now };

    fn put_at_front(self, out: &mut [u8]) -> Result<usize, Refusal> {
        if out.len() < self.len() {
            return Err(Refusal::OutputFull);
        }
        out[..self.len()].copy_from_slice(self);
        Ok(self.len())
    }
}

impl<const N: usize> Printed for &[u8; N] {
    ghost bytes = { λ text. text.now };

    fn put_at_front(self, out: &mut [u8]) -> Result<usize, Refusal> {
        self.as_slice().put_at_front(out)
    }
}

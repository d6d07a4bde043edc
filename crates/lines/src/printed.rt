// What can be printed.
ghost use Rattle.std.specs.Prelude.{◌≡◌, ℕ, List};
ghost use Rattle.lines.specs.Places.{end_at, written_at};

use refusals::refusal::Refusal;

// A value with the bytes that it prints.
pub trait Printed: Drop {
    ghost bytes: { Self → List ℕ };

    // Writes the bytes at the front of the output, whole or not at all, and answers how many they are.
    fn put_at_front(self, out: &mut [u8]) -> Result<usize, Refusal>
        ensures answer { result ≡ end_at out.old 0 (bytes self) }
        ensures after { out.new ≡ written_at out.old 0 (bytes self) };
}

// A number's decimal digits.
ghost use Rattle.std.specs.Prelude.{◌≡◌, ◌≤◌, length, decimal};
ghost use Rattle.lines.specs.Places.{placed};

use itoa::Buffer;

// How many digits the number has.
pub(crate) fn digit_count(n: u32) -> usize
    ensures value { result ≡ length (decimal n) }
    ensures bound { result ≤ 10 }
{
    Buffer::new().format(n).len()
}

// Writes the digits at the front of the output, and answers how many they are.
pub(crate) fn write_digits(out: &mut [u8], n: u32) -> usize
    requires { length (decimal n) ≤ length out.old }
    ensures answer { result ≡ length (decimal n) }
    ensures after { out.new ≡ placed out.old 0 (decimal n) }
{
    let mut buffer = Buffer::new();
    let digits = buffer.format(n).as_bytes();
    out[..digits.len()].copy_from_slice(digits);
    digits.len()
}

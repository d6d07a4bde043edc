// A printed line.
ghost use Rattle.std.specs.Prelude.{◌≡◌, ◌-◌, ◌≤◌, length, SomeIff};
ghost use Rattle.lines.specs.Lines.{line_of, bytes_of};
ghost use Rattle.lines.specs.Places.{placed};

use crate::digits::{digit_count, write_digits};
use crate::printed::Printed;
use refusals::refusal::Refusal;

// The numbers of a line. There is at least one.
#[derive(Clone, Copy, PartialEq, Eq, Debug)]
pub struct Line<'a> {
    first: u32,
    rest: &'a [u32],
}

impl<'a> Line<'a> {
    // The line of these numbers.
    pub fn new(first: u32, rest: &'a [u32]) -> Line<'a>
        ensures { bytes_of result ≡ line_of first rest.now }
    {
        Line { first, rest }
    }

    // The room that the line leaves, if it fits. It takes each number off the room, so that no sum of lengths can wrap.
    // A loop is plainer here than `try_fold`, which tells of its outcome by the calls of its closure alone.
    fn room_behind(&self, room: usize) -> Option<usize>
        ensures { SomeIff result (length (bytes_of self.now) ≤ room) (room - length (bytes_of self.now)) }
    {
        let mut left = room.checked_sub(digit_count(self.first) + 1)?;
        for n in self.rest {
            left = left.checked_sub(digit_count(*n) + 1)?;
        }
        Some(left)
    }

    // Writes the line at the front of an output that has room for it, and answers its length.
    fn write(&self, out: &mut [u8]) -> usize
        requires { length (bytes_of self.now) ≤ length out.old }
        ensures answer { result ≡ length (bytes_of self.now) }
        ensures after { out.new ≡ placed out.old 0 (bytes_of self.now) }
    {
        let mut end = write_digits(out, self.first);
        for n in self.rest {
            out[end] = b' ';
            end += 1;
            end += write_digits(&mut out[end..], *n);
        }
        out[end] = b'\n';
        end + 1
    }
}

impl Printed for Line<'_> {
    ghost bytes = { bytes_of };

    fn put_at_front(self, out: &mut [u8]) -> Result<usize, Refusal> {
        self.room_behind(out.len()).ok_or(Refusal::OutputFull)?;
        Ok(self.write(out))
    }
}

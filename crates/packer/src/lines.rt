// Text, cut into lines.
ghost use Rattle.std.specs.Prelude.{◌≡◌, ◌==◌, position};
ghost use Rattle.std.specs.Iterator.{YieldsFirstRef, item_count};
ghost use Rattle.packer.specs.Lines.{lines_of};

const LINE_FEED: u8 = 10;

// Where the first line feed stands.
fn first_feed(text: &[u8]) -> Option<usize>
    ensures { result ≡ position (λ b. b == 10) text.now }
{
    text.iter().position(|byte| *byte == LINE_FEED)
}

// The lines of a text that are left, one after the other. The library's `split` opens a further line behind a last line feed,
// and one in an empty text; a session file must have neither.
#[derive(Drop)]
pub(crate) struct Lines<'a> {
    left: &'a [u8],
}

impl<'a> Iterator for Lines<'a> {
    type Item = &'a [u8];

    ghost next_gives = { YieldsFirstRef (λ s. lines_of s.left.now) };

    ghost remaining = { item_count (λ s. lines_of s.left.now) };

    fn next(&mut self) -> Option<&'a [u8]> {
        if self.left.is_empty() {
            return None;
        }
        let end = first_feed(self.left).unwrap_or(self.left.len());
        let (line, after) = self.left.split_at(end);
        self.left = after.get(1..).unwrap_or(&[]);
        Some(line)
    }
}

// The lines of a text: the pieces between its line feeds, where one at the very end opens no further line.
pub(crate) fn lines_of(text: &[u8]) -> Lines<'_>
    ensures { result.left.now ≡ text.now }
{
    Lines { left: text }
}

// Session files: the index, its check, and the order texts that it names.
ghost use Rattle.std.specs.Prelude.{◌≡◌, ◌<◌, [], true, length, IfOk, slice_index_or};
ghost use Rattle.index.specs.Index.{count_of, pairs_in, all_lie, sound};

use crate::pairs::{index_of, place_of};
use crate::texts::Texts;
use refusals::refusal::Refusal;

// The most bytes that a session file has.
pub const MOST: usize = 16384;

// Whether each text lies in the file and begins no earlier than the one before it ends.
fn all_lie(bytes: &[u8], index: &[[u8; 4]]) -> bool
    requires { index.now ≡ pairs_in bytes.now }
    ensures { result ≡ all_lie bytes.now (count_of bytes.now) }
{
    let mut end = 0;
    for pair in index {
        let place = place_of(*pair);
        if place.start < end || place.end > bytes.len() {
            return false;
        }
        end = place.end;
    }
    true
}

// A session file whose index has been checked whole.
#[derive(Clone, Copy)]
pub struct SessionFile<'a> {
    bytes: &'a [u8],
    // where each text lies
    index: &'a [[u8; 4]],
    // the whole check holds, and the pairs are those of the file
    ghost checked: { sound bytes.now ≡ true },
    ghost pairs: { index.now ≡ pairs_in bytes.now },
}

impl<'a> SessionFile<'a> {
    ghost use Rattle.index.specs.Apart.{Apart};
    ghost use Rattle.index.specs.Texts.{texts};
    ghost use Rattle.index.specs.Opened.{texts_of, said};
    ghost use Rattle.index.specs.Left.{texts_left};

    // Checks the whole index of a file.
    pub fn open(bytes: &'a [u8]) -> Result<SessionFile<'a>, Refusal>
        ensures texts { said result ≡ texts bytes.now }
        ensures same { IfOk result (λ f. f.bytes.now ≡ bytes.now) }
        ensures apart { IfOk result (λ f. Apart f.bytes.now) }
    {
        match index_of(bytes) {
            Some(index) if bytes.len() <= MOST && all_lie(bytes, index) => {
                Ok(SessionFile { bytes, index })
            }
            _ => Err(Refusal::BadIndex),
        }
    }

    // How many order texts there are.
    pub fn count(&self) -> usize
        ensures value { result ≡ length (texts_of self.now) }
        ensures small { result < 65536 }
    {
        self.index.len()
    }

    // The text `order`, from 0; nothing where there is none.
    pub fn text(&self, order: usize) -> &'a [u8]
        ensures { result.now ≡ slice_index_or (texts_of self.now) order [] }
    {
        match self.index.get(order) {
            Some(pair) => &self.bytes[place_of(*pair)],
            None => &[],
        }
    }

    // All the texts, one after the other.
    pub fn texts(&self) -> Texts<'a>
        ensures texts { texts_left result ≡ texts_of self.now }
        ensures few { length (texts_left result) < 65536 }
    {
        Texts {
            bytes: self.bytes,
            index: self.index,
        }
    }
}

#[cfg(test)]
mod tests {
    use super::SessionFile;
    use refusals::refusal::Refusal;
    use std::test::Fail;

    #[test]
    fn damaged_indexes_are_refused(rt: HostRuntime) {
        let too_long = [0u8; 16385];
        let files: [&[u8]; 9] = [
            // no bytes, and half a count
            b"",
            b"\x00",
            // a count of one with no pair, and with three quarters of a pair
            b"\x01\x00",
            b"\x01\x00\x06\x00\x00",
            // a text that ends past the file, and an empty one that begins past it
            b"\x01\x00\x06\x00\x02\x00A",
            b"\x01\x00\x07\x00\x00\x00",
            // two texts that overlap, and two that fall
            b"\x02\x00\x0a\x00\x02\x00\x0b\x00\x01\x00AB",
            b"\x02\x00\x0b\x00\x01\x00\x0a\x00\x01\x00AB",
            &too_long,
        ];
        for file in files {
            assert!(rt; matches!(SessionFile::open(file), Err(Refusal::BadIndex)));
        }
    }

    #[test]
    fn a_good_file_gives_its_texts(rt: HostRuntime) -> Result<(), Fail> {
        let bytes =
            b"\x06\x00\x1a\x00\x01\x00\x1b\x00\x03\x00\x1e\x00\x0a\x00\x28\x00\x05\x00\x2d\x00\x03\x00\x30\x00\x01\x00CN 1P 0 1 0 77G 0 0L 0E";
        let texts: [&[u8]; 6] = [b"C", b"N 1", b"P 0 1 0 77", b"G 0 0", b"L 0", b"E"];
        let file = SessionFile::open(bytes)?;
        assert!(rt; file.count() == 6);
        for (order, text) in texts.iter().enumerate() {
            assert!(rt; file.text(order) == *text);
        }
        assert!(rt; file.text(6).is_empty());
        Ok(())
    }

    #[test]
    fn texts_come_in_their_order(rt: HostRuntime) -> Result<(), Fail> {
        let file = SessionFile::open(b"\x02\x00\x0a\x00\x01\x00\x0b\x00\x02\x00ABC")?;
        let mut texts = file.texts();
        assert!(rt; matches!(texts.next(), Some(b"A")));
        assert!(rt; matches!(texts.next(), Some(b"BC")));
        assert!(rt; texts.next().is_none());
        Ok(())
    }
}

// Packs lines into a session file.
ghost use Rattle.std.specs.Prelude.{◌≡◌, ◌+◌, ◌*◌, ◌<◌, ◌≤◌, ◌++◌, length, IfOk, Ok, MatchResult, nat_lt};
ghost use Rattle.index.specs.Texts.{texts};
ghost use Rattle.packer.specs.declared.fault.PackFault.TheVariants.{Memory};
ghost use Rattle.packer.specs.Answers.{is_too_long};
ghost use Rattle.packer.specs.Lines.{lines_of};
ghost use Rattle.packer.specs.Pieces.{Pieces};
ghost use Rattle.packer.specs.Packed.{number_bytes, pairs_from, all_bytes, packed};

use crate::fault::*;
use crate::lines::lines_of;
use index::file::MOST;
use std::alloc::Global;

// How many lines a text has, and how many bytes they hold together: one pass over the lines counts both.
#[derive(Clone, Copy)]
struct Sizes {
    count: usize,
    bytes: usize,
}

#[tactic(auto, using(crate::proofs::Written::few))]
fn sizes_of(lines: &[u8]) -> Sizes
    ensures count { result.count ≡ length (lines_of lines.now) }
    ensures bytes { result.bytes ≡ length (all_bytes (lines_of lines.now)) }
    ensures bound { (result.count ≤ length lines.now) × (result.bytes ≤ length lines.now) }
{
    let mut count = 0;
    let mut bytes = 0;
    for line in lines_of(lines) {
        count += 1;
        bytes += line.len();
    }
    Sizes { count, bytes }
}

// Writes a number as two bytes, the lower one first.
fn put_number(file: &mut Vec<u8>, number: usize) -> Result<(), PackFault>
    requires { number < 65536 }
    ensures { MatchResult result (λ _. file.new.items ≡ file.old.items ++ number_bytes number) (λ e. e ≡ Memory) }
{
    file.extend_from_slice(&(number as u16).to_le_bytes())?;
    Ok(())
}

// Writes where each line lies, if the first lies at `from` and each of the others where the one before it ends.
fn put_pairs(file: &mut Vec<u8>, lines: &[u8], from: usize) -> Result<(), PackFault>
    requires { from + length (all_bytes (lines_of lines.now)) < 65536 }
    ensures { MatchResult result (λ _. file.new.items ≡ file.old.items ++ pairs_from from (lines_of lines.now)) (λ e. e ≡ Memory) }
{
    let mut offset = from;
    for line in lines_of(lines) {
        put_number(file, offset)?;
        put_number(file, line.len())?;
        offset += line.len();
    }
    Ok(())
}

// Writes the lines one after the other.
fn put_texts(file: &mut Vec<u8>, lines: &[u8]) -> Result<(), PackFault>
    ensures { MatchResult result (λ _. file.new.items ≡ file.old.items ++ all_bytes (lines_of lines.now)) (λ e. e ≡ Memory) }
{
    for line in lines_of(lines) {
        file.extend_from_slice(line)?;
    }
    Ok(())
}

// Writes the session file of lines whose sizes are known.
fn write_file(heap: Global, lines: &[u8], sizes: Sizes) -> Result<Vec<u8>, PackFault>
    requires count { sizes.count ≡ length (lines_of lines.now) }
    requires bytes { sizes.bytes ≡ length (all_bytes (lines_of lines.now)) }
    requires fits { 2 + 4 * sizes.count + sizes.bytes ≤ 16384 }
    ensures { MatchResult result (λ v. v.items ≡ packed (lines_of lines.now)) (λ e. e ≡ Memory) }
{
    let texts_from = 2 + 4 * sizes.count;
    let mut file = Vec::with_capacity(heap, texts_from + sizes.bytes)?;
    put_number(&mut file, sizes.count)?;
    put_pairs(&mut file, lines, texts_from)?;
    put_texts(&mut file, lines)?;
    Ok(file)
}

// The session file whose order texts are the lines.
#[tactic(auto, using(crate::proofs::Fits::long_text, crate::proofs::Fits::long_file))]
pub fn pack(heap: Global, lines: &[u8]) -> Result<Vec<u8>, PackFault>
    ensures too_long { is_too_long result ≡ nat_lt 16384 (length (packed (lines_of lines.now))) }
    ensures bytes { IfOk result (λ v. v.items ≡ packed (lines_of lines.now)) }
    ensures reads_back { IfOk result (λ v. texts v.items ≡ Ok (lines_of lines.now)) }
    ensures lines { Pieces lines.now }
{
    // a line feed is left out, but its line has a pair of four bytes: the file is longer than the lines
    if lines.len() > MOST {
        return Err(PackFault::TooLong);
    }
    let sizes = sizes_of(lines);
    if 2 + 4 * sizes.count + sizes.bytes > MOST {
        return Err(PackFault::TooLong);
    }
    write_file(heap, lines, sizes)
}

#[cfg(test)]
mod tests {
    use super::pack;
    use index::file::SessionFile;
    use std::test::Fail;

    #[test]
    fn packed_lines_are_read_back(rt: HostRuntime) -> Result<(), Fail> {
        let packed = pack(rt.alloc(), b"C\nN 1\n")?;
        let file = SessionFile::open(packed.as_slice())?;
        assert!(rt; file.count() == 2);
        assert!(rt; file.text(0) == b"C".as_slice());
        assert!(rt; file.text(1) == b"N 1".as_slice());
        Ok(())
    }
}

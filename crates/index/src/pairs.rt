// The pairs of an index: four bytes for each text, that say where it lies.
ghost use Rattle.std.specs.Prelude.{◌≡◌, ◌+◌, ◌*◌, ◌<◌, ◌≤◌, length, MatchOption};
ghost use Rattle.index.specs.Index.{number_at, count_of, pairs_in};

use std::ops::Range;

// Where a text lies, by its pair of the index: the lower byte of each number comes first.
pub(crate) fn place_of(pair: [u8; 4]) -> Range<usize>
    ensures start { result.start ≡ number_at pair 0 }
    ensures end { result.end ≡ number_at pair 0 + number_at pair 2 }
{
    let start = usize::from(u16::from_le_bytes([pair[0], pair[1]]));
    let length = usize::from(u16::from_le_bytes([pair[2], pair[3]]));
    start..start + length
}

// The pairs of the index; nothing where the file is too short for them.
pub(crate) fn index_of(bytes: &[u8]) -> Option<&[[u8; 4]]>
    ensures { MatchOption result (length bytes.now < 2 + 4 * count_of bytes.now) (λ pairs. (2 + 4 * count_of bytes.now ≤ length bytes.now) × (pairs.now ≡ pairs_in bytes.now)) }
{
    let (count, rest) = bytes.split_first_chunk::<2>()?;
    let (pairs, _) = rest.as_chunks::<4>();
    pairs.get(..usize::from(u16::from_le_bytes(*count)))
}

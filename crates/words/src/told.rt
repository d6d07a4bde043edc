// A number told apart as a word, and a word's number.
ghost use Rattle.std.specs.Prelude.{◌≡◌, Some, None, MatchResult, ◌≢◌};
ghost use Rattle.refusals.specs.declared.refusal.Refusal.TheVariants.{Torn};
ghost use Rattle.words.specs.declared.word.Word.{Word};
ghost use Rattle.words.specs.Words.{is_place, told, coded, Proper};

use crate::word::Word;
use refusals::refusal::Refusal;

// The highest place of a node or of a descriptor that a word can name; so no table has more places.
pub const LAST_PLACE: u32 = 4095;

// The highest scanner number that a mark can name.
pub const LAST_SCANNER: u32 = 15;

const DESCRIPTORS: u32 = 65536;

const MARKS: u32 = 131072;

// Whether a word can name the place.
fn is_place(place: u32) -> bool
    ensures { result ≡ is_place place }
{
    (1..=LAST_PLACE).contains(&place)
}

// What a number says as a word, which has that number; a number that no word has is torn.
impl TryFrom<u32> for Word {
    type Error = Refusal;

    ghost try_from_gives = { λ n r. MatchResult r (λ w. (told n ≡ Some w) × (coded w ≡ Some n)) (λ e. (e ≡ Torn) × (told n ≡ None) × ((w : Word) → coded w ≢ Some n)) };

    fn try_from(number: u32) -> Result<Word, Refusal> {
        match number {
            0 => Ok(Word::Nil),
            1..=4095 => Ok(Word::Node(number)),
            65537..=69631 => Ok(Word::Descriptor(number - DESCRIPTORS)),
            131072..=196607 if number % 4096 != 0 => Ok(Word::Mark {
                scanner: (number - MARKS) / 4096,
                descriptor: number % 4096,
            }),
            _ => Err(Refusal::Torn),
        }
    }
}

// A word's number, which is told as that word; a word that names a place or a scanner that no word can name is torn.
impl TryFrom<Word> for u32 {
    type Error = Refusal;

    ghost try_from_gives = { λ w r. MatchResult r (λ n. (coded w ≡ Some n) × (told n ≡ Some w) × Proper w) (λ e. (e ≡ Torn) × (coded w ≡ None) × (Proper w → ⊥)) };

    fn try_from(word: Word) -> Result<u32, Refusal> {
        match word {
            Word::Nil => Ok(0),
            Word::Node(place) if is_place(place) => Ok(place),
            Word::Descriptor(place) if is_place(place) => Ok(DESCRIPTORS + place),
            Word::Mark {
                scanner,
                descriptor,
            } if scanner <= LAST_SCANNER && is_place(descriptor) => {
                Ok(MARKS + 4096 * scanner + descriptor)
            }
            _ => Err(Refusal::Torn),
        }
    }
}

// What a word stands for while two-word swaps are under way.
ghost use Rattle.std.specs.Prelude.{◌≡◌, IfOk, Ok, Some, None, MatchResult};
ghost use Rattle.refusals.specs.declared.refusal.Refusal.TheVariants.{Torn};
ghost use Rattle.words.specs.Words.{told};
ghost use Rattle.memory.specs.Lent.{seen_of};
ghost use Rattle.memory.specs.Meaning.{outcome_of, first_word, second_word, meant, plain, stands_for, Plain};

use crate::view::Memory;
use records::entries::Descriptor;
use refusals::refusal::Refusal;
use words::word::Word;

// The numbers of the results that are no marks.
pub const UNDECIDED: u32 = 1;

pub const SUCCESS: u32 = 2;

pub const SECOND_FAILED: u32 = 3;

// What a descriptor's result says.
#[derive(Clone, Copy, PartialEq, Eq, Debug)]
pub enum Outcome {
    Undecided,
    Success,
    SecondFailed,
    // decided by the mark of this scanner
    DecidedBy(u32),
}

impl Outcome {
    // What a number says as a result of the descriptor at a place; a number that is no result of it is torn.
    pub fn tell(descriptor: u32, number: u32) -> Result<Outcome, Refusal>
        ensures { MatchResult result (λ o. outcome_of descriptor number ≡ Some o) (λ e. (e ≡ Torn) × (outcome_of descriptor number ≡ None)) }
    {
        match number {
            UNDECIDED => Ok(Outcome::Undecided),
            SUCCESS => Ok(Outcome::Success),
            SECOND_FAILED => Ok(Outcome::SecondFailed),
            _ => match Word::try_from(number)? {
                Word::Mark {
                    scanner,
                    descriptor: of,
                } if of == descriptor => Ok(Outcome::DecidedBy(scanner)),
                _ => Err(Refusal::Torn),
            },
        }
    }
}

// The word for which the descriptor stands at its first address: the new one once it is decided.
fn first_word(descriptor: &Descriptor, outcome: Outcome) -> u32
    ensures { Ok result ≡ first_word descriptor.now (Some outcome) }
{
    match outcome {
        Outcome::Success | Outcome::DecidedBy(_) => descriptor.first.new,
        Outcome::Undecided | Outcome::SecondFailed => descriptor.first.old,
    }
}

// The word for which the scanner's mark stands at the second address: the new one only while the result is that very mark.
fn second_word(scanner: u32, descriptor: &Descriptor, outcome: Outcome) -> u32
    ensures { Ok result ≡ second_word scanner descriptor.now (Some outcome) }
{
    match outcome {
        Outcome::DecidedBy(winner) if winner == scanner => descriptor.second.new,
        _ => descriptor.second.old,
    }
}

impl Memory<'_> {
    // What a word stands for: nil or a taken node.
    pub fn stands_for(&self, word: u32) -> Result<u32, Refusal>
        ensures value { result ≡ stands_for (seen_of self.now) word }
        ensures plain { IfOk result (Plain (seen_of self.now)) }
    {
        let meant = self.meant(word)?;
        self.plain(meant)
    }

    // What a word stands for, whatever that is.
    fn meant(&self, word: u32) -> Result<u32, Refusal>
        ensures { result ≡ meant (seen_of self.now) word (told word) }
    {
        Ok(match Word::try_from(word)? {
            Word::Nil | Word::Node(_) => word,
            Word::Descriptor(place) => {
                let descriptor = self.descriptor(place)?;
                first_word(&descriptor, Outcome::tell(place, descriptor.result)?)
            }
            Word::Mark {
                scanner,
                descriptor: place,
            } => {
                let descriptor = self.descriptor(place)?;
                second_word(
                    scanner,
                    &descriptor,
                    Outcome::tell(place, descriptor.result)?,
                )
            }
        })
    }

    // The word itself, where it is nil or a taken node.
    pub fn plain(&self, word: u32) -> Result<u32, Refusal>
        ensures { result ≡ plain (seen_of self.now) word }
    {
        if word != 0 {
            self.node(word)?;
        }
        Ok(word)
    }
}

// What an access finds. What has no valid form, or names a place not taken, is torn.
ghost use Rattle.std.specs.Prelude.{◌≡◌};
ghost use Rattle.memory.specs.Lent.{seen_of};
ghost use Rattle.swap_access.specs.Found.{found_at, outcome_at};

use memory::meaning::Outcome;
use memory::view::Memory;
use refusals::refusal::Refusal;
use words::word::Word;

// The number of the word at an address.
#[tactic(auto, unfolding(crate::specs::Found::found_at))]
pub fn found_at(memory: &Memory<'_>, address: u32) -> Result<u32, Refusal>
    ensures { result ≡ found_at (seen_of memory.now) address }
{
    let number = memory.word_at(address)?;
    match Word::try_from(number)? {
        Word::Nil => {}
        Word::Node(place) => {
            memory.node(place)?;
        }
        Word::Descriptor(place)
        | Word::Mark {
            descriptor: place,
            ..
        } => {
            memory.descriptor(place)?;
        }
    }
    Ok(number)
}

// What the result of a descriptor says.
#[tactic(auto, unfolding(crate::specs::Found::outcome_at))]
pub fn outcome_at(memory: &Memory<'_>, descriptor: u32) -> Result<Outcome, Refusal>
    ensures { result ≡ outcome_at (seen_of memory.now) descriptor }
{
    let result = memory.descriptor(descriptor)?.result;
    Outcome::tell(descriptor, result)
}

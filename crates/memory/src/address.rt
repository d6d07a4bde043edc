// Addresses of words: tray t has addresses 2t and 2t + 1, and 64 + n is the next word of node n.
ghost use Rattle.std.specs.Prelude.{◌≡◌, Some, None, MatchResult};
ghost use Rattle.refusals.specs.declared.refusal.Refusal.TheVariants.{Torn};
ghost use Rattle.memory.specs.Addresses.{addressed};

use refusals::refusal::Refusal;

// Where a word stands.
#[derive(Clone, Copy, PartialEq, Eq, Debug)]
pub enum Address {
    // a word of the tray table, by its index
    TrayWord(u32),
    // the next word of the node at this place
    NextWord(u32),
}

// What a number says as an address; a number that is no address is torn.
impl TryFrom<u32> for Address {
    type Error = Refusal;

    ghost try_from_gives = { λ n r. MatchResult r (λ a. addressed n ≡ Some a) (λ e. (e ≡ Torn) × (addressed n ≡ None)) };

    fn try_from(number: u32) -> Result<Address, Refusal> {
        match number {
            0..=63 => Ok(Address::TrayWord(number)),
            65..=4159 => Ok(Address::NextWord(number - 64)),
            _ => Err(Refusal::Torn),
        }
    }
}

// The addresses of a tray's two words and of a node's next word; of a tray or a node that is not there, perhaps the largest number.
ghost use Rattle.std.specs.Prelude.{◌≡◌};
ghost use Rattle.kinds.specs.Addresses.{first_word_at, second_word_at, next_word_at};

pub fn first_word_at(tray: u32) -> u32
    ensures { result ≡ first_word_at tray }
{
    2u32.saturating_mul(tray)
}

pub fn second_word_at(tray: u32) -> u32
    ensures { result ≡ second_word_at tray }
{
    first_word_at(tray).saturating_add(1)
}

pub fn next_word_at(node: u32) -> u32
    ensures { result ≡ next_word_at node }
{
    64u32.saturating_add(node)
}

// An order's text: a letter, and the numbers that it takes.
ghost use Rattle.std.specs.Prelude.{◌≡◌};
ghost use Rattle.orders.specs.Orders.{order_of};
ghost use Rattle.orders.specs.Spelled.{Understood};

use crate::number::read_numbers;
use crate::order::Order;
use refusals::refusal::Refusal;

// Reads the order that the text spells. A text that spells none is refused.
pub fn read_order(text: &[u8]) -> Result<Order, Refusal>
    ensures value { result ≡ order_of text.now }
    ensures law { Understood text.now result }
{
    let [letter, numbers @ ..] = text else {
        return Err(Refusal::Wording);
    };
    match *letter as char {
        'R' => {
            let [] = read_numbers::<0>(numbers)?;
            Ok(Order::LayQueue)
        }
        'C' => {
            let [] = read_numbers::<0>(numbers)?;
            Ok(Order::LayStack)
        }
        'N' => {
            let [crew] = read_numbers::<1>(numbers)?;
            Ok(Order::Start { crew })
        }
        _ => Err(Refusal::Wording),
    }
}

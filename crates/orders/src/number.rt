// The numbers of an order's text.
ghost use Rattle.std.specs.Prelude.{◌≡◌};
ghost use Rattle.orders.specs.Numbers.{with_rest, with_digit, digits_of, number_of, numbers_of};

use refusals::refusal::Refusal;

// The value with one more digit, if that fits 32 bits. A byte below the digits counts as 0, so nothing is asked of the caller.
fn add_digit(value: u32, digit: u8) -> Result<u32, Refusal>
    ensures { result ≡ with_digit value digit }
{
    value
        .checked_mul(10)
        .and_then(|tens| tens.checked_add(u32::from(digit.saturating_sub(b'0'))))
        .ok_or(Refusal::Wording)
}

// Reads all the digits at the front of the text, and answers what they come to and the rest of the text.
fn read_digits(text: &[u8]) -> Result<(u32, &[u8]), Refusal>
    ensures { with_rest result ≡ digits_of 0 text.now }
{
    let mut value = 0;
    let mut rest = text;
    while let [digit, after @ ..] = rest
        && digit.is_ascii_digit()
    {
        value = add_digit(value, *digit)?;
        rest = after;
    }
    Ok((value, rest))
}

// Reads one space and a decimal with no leading zero, and answers the number and the rest of the text.
fn read_number(text: &[u8]) -> Result<(u32, &[u8]), Refusal>
    ensures { with_rest result ≡ number_of text.now }
{
    let [b' ', digits @ ..] = text else {
        return Err(Refusal::Wording);
    };
    match digits {
        [b'0', rest @ ..] => Ok((0, rest)),
        [b'1'..=b'9', ..] => read_digits(digits),
        _ => Err(Refusal::Wording),
    }
}

// Reads exactly K numbers, with nothing after them.
pub(crate) fn read_numbers<const K: usize>(text: &[u8]) -> Result<[u32; K], Refusal>
    ensures { result ≡ numbers_of K text.now }
{
    let mut numbers = [0; K];
    let mut left = text;
    for place in numbers.iter_mut() {
        let (number, rest) = read_number(left)?;
        *place = number;
        left = rest;
    }
    if left.is_empty() {
        Ok(numbers)
    } else {
        Err(Refusal::Wording)
    }
}

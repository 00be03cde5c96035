// Numbers, as they are spelled in a text and as what they are.
ghost use Rattle.std.specs.Prelude.{◌≡◌, ◌-◌, ◌^◌, min};
ghost use Rattle.std.specs.List.{list_all};
ghost use Rattle.gx_tokens.specs.Lexemes.{is_digit};
ghost use Rattle.gx_tokens.specs.Numbers.{digits_value, number_value, natural_up_to, signed_in_range, are_digits, is_number, signed_number};

use crate::split::is_digit;

// The number that digits are, or the greatest of 64 bits where it is above that.
fn saturated(digits: &[u8]) -> u64
    ensures { result ≡ min (2 ^ 64 - 1) (digits_value digits.now) }
{
    let mut value: u64 = 0;
    for digit in digits {
        value = value
            .saturating_mul(10)
            .saturating_add(u64::from(digit.saturating_sub(b'0')));
    }
    value
}

/// The number that a number token is, with any number of digits, from 0 to `most`. None: exactly
/// where it is another one.
#[tactic(auto, unfolding(crate::specs::Numbers::number_value))]
pub fn natural_number(text: &[u8], most: u16) -> Option<u16>
    ensures { result ≡ natural_up_to most (number_value text.now) }
{
    let (digits, most) = match text {
        [b'-', digits @ ..] => (digits, 0),
        digits => (digits, most),
    };
    let value = saturated(digits);
    if value <= u64::from(most) {
        Some(value as u16)
    } else {
        None
    }
}

fn all_digits(text: &[u8]) -> bool
    ensures { result ≡ list_all is_digit text.now }
{
    text.iter().all(|byte| is_digit(*byte))
}

fn are_digits(text: &[u8]) -> bool
    ensures { result ≡ are_digits text.now }
{
    !text.is_empty() && all_digits(text)
}

#[tactic(auto, unfolding(crate::specs::Numbers::is_number))]
fn is_number(text: &[u8]) -> bool
    ensures { result ≡ is_number text.now }
{
    match text {
        [b'-', digits @ ..] => are_digits(digits),
        digits => are_digits(digits),
    }
}

#[tactic(auto, unfolding(crate::specs::Numbers::number_value))]
fn signed_value(text: &[u8]) -> Option<i64>
    ensures { result ≡ signed_in_range (number_value text.now) }
{
    match text {
        [b'-', digits @ ..] => match saturated(digits) {
            0 => Some(0),
            value => i64::try_from(value - 1).ok().map(|below| -1 - below),
        },
        digits => i64::try_from(saturated(digits)).ok(),
    }
}

/// The number that a text is: digits, any number of them, behind a `-` or not. None: exactly where
/// the text is no number, or is one that 64 bits with a sign don't hold.
pub fn signed_number(text: &[u8]) -> Option<i64>
    ensures { result ≡ signed_number text.now }
{
    if is_number(text) {
        signed_value(text)
    } else {
        None
    }
}

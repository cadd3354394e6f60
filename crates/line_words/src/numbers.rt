ghost use Rattle.std.specs.Prelude.{◌≡◌, ◌≤◌, true, length};
ghost use Rattle.std.specs.List.{list_all};
ghost use Rattle.std.specs.Str.Parse.{digits_value};
ghost use Rattle.line_words.specs.Numbers.{is_decimal, number_of};

use thiserror::Error;

/// The most digits of a number, leading zeros among them.
const MOST_DIGITS: usize = 20;

/// Why a word is no number.
#[derive(Clone, Copy, Debug, PartialEq, Eq, Error)]
pub enum NumberFault {
    /// It is empty, or has a byte that is no decimal digit.
    #[error("not digits")]
    NotDigits,
    /// It has more than 20 digits.
    #[error("too long")]
    TooLong,
    /// It stands for more than 2^64 - 1.
    #[error("too large")]
    TooLarge,
}

/// The number that a word of 1 to 20 decimal digits writes, up to 2^64 - 1. Leading zeros are read,
/// a sign isn't. Of several faults the first in the order of `NumberFault` is reported.
#[tactic(auto, unfolding(crate::specs::Numbers::number_of))]
pub fn number(word: &[u8]) -> Result<u64, NumberFault>
    ensures { result ≡ number_of word.now }
{
    if word.is_empty() || !are_digits(word) {
        return Err(NumberFault::NotDigits);
    }
    if word.len() > MOST_DIGITS {
        return Err(NumberFault::TooLong);
    }
    u64::try_from(value(word)).map_err(|_| NumberFault::TooLarge)
}

fn are_digits(word: &[u8]) -> bool
    ensures { result ≡ list_all is_decimal word.now }
{
    word.iter().all(|byte| byte.is_ascii_digit())
}

// The value of up to 20 digits, which 67 bits hold.
fn value(word: &[u8]) -> u128
    requires digits { list_all is_decimal word.now ≡ true }
    requires short { length word.now ≤ 20 }
    ensures { result ≡ digits_value 10 word.now }
{
    let mut value = 0u128;
    for byte in word {
        value = value * 10 + u128::from(*byte - b'0');
    }
    value
}

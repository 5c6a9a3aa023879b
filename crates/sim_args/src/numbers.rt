//! Numbers in the words of a command line.
ghost use Rattle.std.specs.Prelude.{◌≡◌, ◌<◌, ◌^◌, ℕ, IfNone, IfSome, Some, decimal, false, option_map};
ghost use Rattle.sim_args.specs.Numbers.{IsGiven, is_given_well, keys_between, keys_in, number_in, number_within};

use crate::command::KeyRange;
use itoa::Buffer;

// How many keys more than the first one there are at most.
const MORE: u64 = 999_999;

// The number that a word says in decimal, below 2^64, with no sign and no zero in front.
fn number_of(word: &str) -> Option<u64>
    ensures { result ≡ number_in word.now }
{
    read_number(word)
}

// The same, by the text of a number.
fn read_number(word: &str) -> Option<u64>
    ensures named { IfSome result (λ number. (number < 2 ^ 64) × (word.now ≡ decimal number)) }
    ensures read { (number : ℕ) → number < 2 ^ 64 → word.now ≡ decimal number
        → result ≡ Some number }
{
    let number: u64 = word.parse().ok()?;
    if Buffer::new().format(number) == word {
        Some(number)
    } else {
        None
    }
}

// The number that a word says, from the one limit to the other.
fn number_from_to(word: &str, low: u8, high: u8) -> Option<u8>
    ensures { result ≡ number_within low high word.now }
{
    let number = u8::try_from(number_of(word)?).ok()?;
    if low <= number && number <= high {
        Some(number)
    } else {
        None
    }
}

/// The number that a word says, from the one limit to the other, or that it is left out.
pub(crate) fn number_given(word: Option<&str>, low: u8, high: u8) -> Option<Option<u8>>
    ensures some { IfSome result (IsGiven low high (option_map (λ w. w.now) word.entry)) }
    ensures none { IfNone result
        (is_given_well low high (option_map (λ w. w.now) word.entry) ≡ false) }
{
    match word {
        Some(word) => Some(Some(number_from_to(word, low, high)?)),
        None => Some(None),
    }
}

/// The keys that a word of the form `A..B` says.
pub(crate) fn keys_of(word: &str) -> Option<KeyRange>
    ensures { result ≡ keys_in word.now }
{
    let (first, rest) = word.split_once('.')?;
    let last = rest.strip_prefix(".")?;
    let first = number_of(first)?;
    let last = number_of(last)?;
    keys_between(first, last)
}

// The keys from the one to the other.
fn keys_between(first: u64, last: u64) -> Option<KeyRange>
    ensures { result ≡ keys_between (Some first) (Some last) }
{
    if first <= last && last - first <= MORE {
        let count = (last - first) as u32 + 1;
        Some(KeyRange { first, count })
    } else {
        None
    }
}

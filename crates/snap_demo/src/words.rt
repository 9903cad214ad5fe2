//! The words that ask for a demonstration.
ghost use Rattle.std.specs.Prelude.{◌≡◌, ◌<◌, ◌≤◌, ◌^◌, IfSome};
ghost use Rattle.std.specs.Str.{chars};
ghost use Rattle.snap_demo.specs.Words.{at_most, demo_mean, digits_number, number_of};

use snap_content::Text;
use snap_content::characters::{is_same, split_first};
use snap_print::integers::is_empty_text;

/// What the words of a demonstration say: where its numbers begin, and how many requests it has.
#[derive(Clone, Copy, Debug, PartialEq, Eq)]
pub struct DemoWords {
    pub seed: u64,
    /// At most 10,000.
    pub count: u32,
}

/// The number that the digits of a text spell, where it is at most the limit. The empty text is zero.
fn number_within(text: &str, most: u64) -> Option<u64>
    ensures number { result ≡ at_most most (digits_number 0 (chars text.now)) }
    ensures within { IfSome result (λ number. number ≤ most) }
{
    let mut number = 0u128;
    let mut rest = text;
    while let Some((c, next)) = split_first(rest) {
        if !c.is_ascii_digit() {
            return None;
        }
        number = number * 10 + (c as u128 - 48);
        if number > u128::from(most) {
            return None;
        }
        rest = next;
    }
    Some(number as u64)
}

/// The number that a text of digits spells, where there is one digit at least and the number is at most the limit.
fn number_in(text: &str, most: u64) -> Option<u64>
    ensures number { result ≡ at_most most (number_of (chars text.now)) }
    ensures within { IfSome result (λ number. number ≤ most) }
{
    if is_empty_text(text) {
        return None;
    }
    number_within(text, most)
}

/// What the words `demo SEED COUNT` say: digits alone, the seed below 2^64 and the count at most 10,000.
pub fn demo_words(words: &[Text]) -> Option<DemoWords>
    ensures said { result ≡ demo_mean words.now }
    ensures seed { IfSome result (λ said. said.seed < 2 ^ 64) }
    ensures few { IfSome result (λ said. said.count ≤ 10000) }
{
    match words {
        [command, seed, count] => {
            if !is_same(command.as_str(), "demo") {
                return None;
            }
            let seed = number_in(seed.as_str(), u64::MAX)?;
            let count = number_in(count.as_str(), 10_000)?;
            Some(DemoWords {
                seed,
                count: count as u32,
            })
        }
        _ => None,
    }
}

// The words that guards are given by.
ghost use Rattle.std.specs.Prelude.{◌≡◌};
ghost use Rattle.std.specs.Option.{option_map};
ghost use Rattle.send_model.specs.Guards.{guard_of, number_word, numbered_guard};
ghost use Rattle.guard_rules.specs.Meaning.{spec_meant};

use crate::kinds::GuardSpec;

const MOST_DIGITS: usize = 20;

/// The guard that a word means: `guard:bytes=N`, `guard:commands=N`, `guard:nodev` or
/// `guard:end=N`, where N is a number of 64 bits in one to twenty decimal digits. None exactly for
/// every other word.
#[tactic(auto, unfolding(send_model::specs::Guards::guard_of))]
pub fn parse_guard(word: &str) -> Option<GuardSpec>
    ensures { option_map spec_meant result ≡ guard_of word.now }
{
    let word = word.as_bytes();
    if word == b"guard:nodev".as_slice() {
        return Some(GuardSpec::NoDevices);
    }
    if let Some(digits) = word.strip_prefix(b"guard:bytes=") {
        return Some(GuardSpec::Bytes(number_of(digits)?));
    }
    if let Some(digits) = word.strip_prefix(b"guard:commands=") {
        return Some(GuardSpec::Commands(number_of(digits)?));
    }
    let digits = word.strip_prefix(b"guard:end=")?;
    Some(GuardSpec::End(number_of(digits)?))
}

/// The number of 64 bits that one to twenty decimal digits say; None exactly for all other bytes.
/// Takes no memory.
pub fn number_of(digits: &[u8]) -> Option<u64>
    ensures { result ≡ number_word digits.now }
{
    if digits.is_empty() || digits.len() > MOST_DIGITS {
        return None;
    }
    let mut number: u64 = 0;
    for place in 0..digits.len() {
        let digit = digits[place];
        if !digit.is_ascii_digit() {
            return None;
        }
        let Some(tens) = number.checked_mul(10) else {
            return None;
        };
        let Some(sum) = tens.checked_add((digit - b'0') as u64) else {
            return None;
        };
        number = sum;
    }
    Some(number)
}

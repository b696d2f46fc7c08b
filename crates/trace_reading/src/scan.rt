//! Reading from left to right.
ghost use Rattle.std.specs.Prelude.{◌≡◌, ℕ, ◌+◌, ◌-◌, ◌*◌, ◌≤◌, ◌^◌, length, take, MatchOption};
ghost use Rattle.std.specs.Int.{IsInRange};
ghost use Rattle.std.specs.Str.Parse.{AllDigits, digits_value};
ghost use Rattle.std.specs.Option.{option_map};
ghost use Rattle.std.specs.Fmt.{decimal};
ghost use Rattle.trace_reading.specs.Spelling.{IsUpTo};
ghost use Rattle.trace_reading.specs.Scanning.{behind, digit_count, is_numeral, numeral, spelled_number, positive_at, spaced_at, numbers_at};

/// What is behind a text at the front of the bytes.
pub fn text_at<'a>(text: &[u8], bytes: &'a [u8]) -> Option<&'a [u8]>
    ensures { option_map (λ rest. rest.now) result ≡ behind text.now bytes.now }
{
    bytes.strip_prefix(text)
}

/// How many digits stand at the front.
pub fn digits_at(bytes: &[u8]) -> usize
    ensures { result ≡ digit_count bytes.now }
{
    for (count, byte) in bytes.iter().enumerate() {
        if !byte.is_ascii_digit() {
            return count;
        }
    }
    bytes.len()
}

/// The number that these digits spell, if a u64 holds it.
pub fn value_of(digits: &[u8]) -> Option<u64>
    requires { AllDigits 10 digits.now }
    ensures { MatchOption result (2 ^ 64 ≤ digits_value 10 digits.now) (λ number. number ≡ digits_value 10 digits.now) }
{
    let mut value: u64 = 0;
    for digit in digits {
        value = with_digit(value, *digit)?;
    }
    Some(value)
}

/// The number with one digit more.
fn with_digit(value: u64, digit: u8) -> Option<u64>
    requires { IsInRange 48 57 digit }
    ensures { MatchOption result (2 ^ 64 ≤ value * 10 + (digit - 48)) (λ number. number ≡ value * 10 + (digit - 48)) }
{
    value.checked_mul(10)?.checked_add(u64::from(digit - b'0'))
}

/// Some digits of which no needless zero leads.
pub fn is_numeral(digits: &[u8]) -> bool
    ensures { result ≡ is_numeral digits.now }
{
    digits.len() == 1 || (!digits.is_empty() && digits[0] != b'0')
}

/// The number that these digits spell, at most a limit.
#[tactic(auto, unfolding(crate::specs::Scanning::numeral))]
fn numeral(limit: u64, digits: &[u8]) -> Option<u64>
    requires { AllDigits 10 digits.now }
    ensures { result ≡ numeral limit digits.now }
{
    if !is_numeral(digits) {
        return None;
    }
    let value = value_of(digits)?;
    (value <= limit).then_some(value)
}

/// The number that the digits at the front spell, at most a limit, and the bytes behind it.
#[tactic(auto, unfolding(crate::specs::Scanning::spelled_number))]
pub fn number_at(limit: u64, bytes: &[u8]) -> Option<(u64, &[u8])>
    ensures { option_map (λ x. (x.0, x.1.now)) result ≡ spelled_number limit bytes.now }
{
    let (digits, rest) = bytes.split_at(digits_at(bytes));
    let number = numeral(limit, digits)?;
    Some((number, rest))
}

/// The number from 1 on that the digits at the front spell, at most a limit, and the bytes behind it.
#[tactic(auto, unfolding(crate::specs::Scanning::positive_at))]
pub fn positive_at(limit: u64, bytes: &[u8]) -> Option<(u64, &[u8])>
    ensures { option_map (λ x. (x.0, x.1.now)) result ≡ positive_at limit bytes.now }
{
    let (number, rest) = number_at(limit, bytes)?;
    if number == 0 {
        None
    } else {
        Some((number, rest))
    }
}

/// The number from 1 to `most` that a whole text spells. A number has no needless zero in front.
pub fn number_in(most: u64, text: &[u8]) -> Option<u64>
    ensures { MatchOption result ((number : ℕ) → IsUpTo most number → text.now ≡ decimal number → ⊥) (λ number. IsUpTo most number × (text.now ≡ decimal number)) }
{
    let (number, rest) = positive_at(most, text)?;
    if rest.is_empty() { Some(number) } else { None }
}

/// The number after a space, at most a limit.
#[tactic(auto, unfolding(crate::specs::Scanning::spaced_at))]
fn spaced_at(limit: u64, bytes: &[u8]) -> Option<(u64, &[u8])>
    ensures { option_map (λ x. (x.0, x.1.now)) result ≡ spaced_at limit bytes.now }
{
    let rest = text_at(b" ", bytes)?;
    number_at(limit, rest)
}

/// Numbers up to these limits, each after a space, and what is behind them.
pub fn numbers_at<'a>(limits: &[u64], bytes: &'a [u8]) -> Option<([u64; 4], &'a [u8])>
    requires { length limits.now ≤ 4 }
    ensures { option_map (λ x. (take (length limits.now) x.0, x.1.now)) result ≡ numbers_at limits.now bytes.now }
{
    let mut numbers = [0; 4];
    let mut rest = bytes;
    for (i, limit) in limits.iter().enumerate() {
        let (number, after) = spaced_at(*limit, rest)?;
        numbers[i] = number;
        rest = after;
    }
    Some((numbers, rest))
}

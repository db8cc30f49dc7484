//! Decimal numbers in the one spelling that is printed: without a sign but `-`, and without a zero in
//! front of other digits.
ghost use Rattle.std.specs.Prelude.{◌≡◌, ◌+◌, ◌*◌, ◌≤◌, ◌<◌, ◌^◌, ◌↔◌, ℕ, length, get_or, IfSome};
ghost use Rattle.std.specs.Prelude.{IfNone, IsTrue};
ghost use Rattle.std.specs.Fmt.{decimal};
ghost use Rattle.std.specs.Str.Parse.{AllDigits, digits_value};
ghost use Rattle.session_text.specs.Words.{IsPlain, long_number_of, long_of, negative_of};
ghost use Rattle.session_text.specs.Words.{number_of};
ghost use Rattle.session_text.specs.Words.{positive_of, signed_of, unsigned_of};

// The number that the digits write, if there are only digits.
#[inline(always)]
fn digits_number(digits: &[u8]) -> Option<u64>
    requires few { length digits.now ≤ 19 }
    ensures value { IfSome result (λ n. n ≡ digits_value 10 digits.now) }
    ensures all { IfSome result (λ n. AllDigits 10 digits.now) }
    ensures other { IfNone result (¬ (AllDigits 10 digits.now)) }
{
    let mut number: u64 = 0;
    for digit in digits {
        if !digit.is_ascii_digit() {
            return None;
        }
        number = 10 * number + u64::from(*digit - b'0');
    }
    Some(number)
}

// From one to so many bytes, of which the first is no zero in front of others.
#[inline(always)]
fn is_plain(most: usize, word: &[u8]) -> bool
    ensures { IsTrue result ↔ IsPlain most word.now }
{
    !word.is_empty() && word.len() <= most && (word[0] != b'0' || word.len() == 1)
}

// The number that is printed so, if it has at most ten digits.
#[inline(always)]
fn numeral(word: &[u8]) -> Option<u64>
    ensures small { IfSome result (λ n. n < 10 ^ 10) }
    ensures value { IfSome result (λ n. word.now ≡ decimal n) }
    ensures other { IfNone result ((n : ℕ) → n < 2 ^ 32 → ¬ (word.now ≡ decimal n)) }
{
    if !is_plain(10, word) {
        return None;
    }
    let number = digits_number(word)?;
    Some(number)
}

// The number, if it has 32 bits.
fn without_sign(number: u64) -> Option<u32>
    ensures { result ≡ unsigned_of number }
{
    u32::try_from(number).ok()
}

/// The number of 32 bits that is written so.
#[inline(always)]
pub(crate) fn parsed_number(word: &[u8]) -> Option<u32>
    ensures { result ≡ number_of word.now }
{
    let number = numeral(word)?;
    without_sign(number)
}

// Ten times so many and a few more, if they have 64 bits.
fn tens_and_ones(tens: u64, ones: u64) -> Option<u64>
    ensures { result ≡ long_of (10 * tens + ones) }
{
    tens.checked_mul(10)?.checked_add(ones)
}

/// The number of 64 bits that is written so.
pub(crate) fn parsed_long_number(word: &[u8]) -> Option<u64>
    ensures { result ≡ long_number_of word.now }
{
    if !is_plain(20, word) {
        return None;
    }
    let (front, last) = word.split_at(word.len() - 1);
    let tens = digits_number(front)?;
    let ones = digits_number(last)?;
    tens_and_ones(tens, ones)
}

// The number above zero or zero, if it has 32 bits with a sign.
fn positive(number: u64) -> Option<i32>
    ensures { result ≡ positive_of number }
{
    i32::try_from(number).ok()
}

// The number below zero with so many units, if it has 32 bits.
fn negative(units: u64) -> Option<i32>
    ensures { result ≡ negative_of units }
{
    if units == 0 || units > 2_147_483_648 {
        return None;
    }
    Some((-(units as i64)) as i32)
}

fn begins_with_minus(word: &[u8]) -> bool
    ensures { IsTrue result ↔ (get_or word.now 0 0 ≡ 45) }
{
    !word.is_empty() && word[0] == b'-'
}

/// The number of 32 bits with a sign that is written so.
#[inline(always)]
pub(crate) fn parsed_signed(word: &[u8]) -> Option<i32>
    ensures { result ≡ signed_of word.now }
{
    if begins_with_minus(word) {
        let units = numeral(&word[1..])?;
        negative(units)
    } else {
        let number = numeral(word)?;
        positive(number)
    }
}

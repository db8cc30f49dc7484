//! Pairs of hex digits in lower case, each looked up in a table.
ghost use Rattle.std.specs.Prelude.{◌≡◌, ◌<◌, ◌≤◌, ◌+◌, ◌*◌, length, take, true};
ghost use Rattle.hex.specs.Hex.{encode_lower};
ghost use Rattle.session_text.specs.Words.{value_of};
ghost use Rattle.wl_wire.specs.Texts.{IsBytes};

// What a byte that is no digit comes to: more than any pair of digits.
const NO_DIGIT: u16 = 256;

// The value of each byte that is a digit or a letter from `a` to `f`.
const VALUES: [u16; 256] = [
    256, 256, 256, 256, 256, 256, 256, 256, 256, 256, 256, 256, 256, 256, 256, 256, 256, 256, 256,
    256, 256, 256, 256, 256, 256, 256, 256, 256, 256, 256, 256, 256, 256, 256, 256, 256, 256, 256,
    256, 256, 256, 256, 256, 256, 256, 256, 256, 256, 0, 1, 2, 3, 4, 5, 6, 7, 8, 9, 256, 256, 256,
    256, 256, 256, 256, 256, 256, 256, 256, 256, 256, 256, 256, 256, 256, 256, 256, 256, 256, 256,
    256, 256, 256, 256, 256, 256, 256, 256, 256, 256, 256, 256, 256, 256, 256, 256, 256, 10, 11,
    12, 13, 14, 15, 256, 256, 256, 256, 256, 256, 256, 256, 256, 256, 256, 256, 256, 256, 256, 256,
    256, 256, 256, 256, 256, 256, 256, 256, 256, 256, 256, 256, 256, 256, 256, 256, 256, 256, 256,
    256, 256, 256, 256, 256, 256, 256, 256, 256, 256, 256, 256, 256, 256, 256, 256, 256, 256, 256,
    256, 256, 256, 256, 256, 256, 256, 256, 256, 256, 256, 256, 256, 256, 256, 256, 256, 256, 256,
    256, 256, 256, 256, 256, 256, 256, 256, 256, 256, 256, 256, 256, 256, 256, 256, 256, 256, 256,
    256, 256, 256, 256, 256, 256, 256, 256, 256, 256, 256, 256, 256, 256, 256, 256, 256, 256, 256,
    256, 256, 256, 256, 256, 256, 256, 256, 256, 256, 256, 256, 256, 256, 256, 256, 256, 256, 256,
    256, 256, 256, 256, 256, 256, 256, 256, 256, 256, 256, 256, 256, 256, 256, 256, 256, 256, 256,
    256, 256, 256, 256,
];

// Sixteen times each of them: what the byte comes to as the first of a pair.
const HIGH_VALUES: [u16; 256] = [
    4096, 4096, 4096, 4096, 4096, 4096, 4096, 4096, 4096, 4096, 4096, 4096, 4096, 4096, 4096, 4096,
    4096, 4096, 4096, 4096, 4096, 4096, 4096, 4096, 4096, 4096, 4096, 4096, 4096, 4096, 4096, 4096,
    4096, 4096, 4096, 4096, 4096, 4096, 4096, 4096, 4096, 4096, 4096, 4096, 4096, 4096, 4096, 4096,
    0, 16, 32, 48, 64, 80, 96, 112, 128, 144, 4096, 4096, 4096, 4096, 4096, 4096, 4096, 4096, 4096,
    4096, 4096, 4096, 4096, 4096, 4096, 4096, 4096, 4096, 4096, 4096, 4096, 4096, 4096, 4096, 4096,
    4096, 4096, 4096, 4096, 4096, 4096, 4096, 4096, 4096, 4096, 4096, 4096, 4096, 4096, 160, 176,
    192, 208, 224, 240, 4096, 4096, 4096, 4096, 4096, 4096, 4096, 4096, 4096, 4096, 4096, 4096,
    4096, 4096, 4096, 4096, 4096, 4096, 4096, 4096, 4096, 4096, 4096, 4096, 4096, 4096, 4096, 4096,
    4096, 4096, 4096, 4096, 4096, 4096, 4096, 4096, 4096, 4096, 4096, 4096, 4096, 4096, 4096, 4096,
    4096, 4096, 4096, 4096, 4096, 4096, 4096, 4096, 4096, 4096, 4096, 4096, 4096, 4096, 4096, 4096,
    4096, 4096, 4096, 4096, 4096, 4096, 4096, 4096, 4096, 4096, 4096, 4096, 4096, 4096, 4096, 4096,
    4096, 4096, 4096, 4096, 4096, 4096, 4096, 4096, 4096, 4096, 4096, 4096, 4096, 4096, 4096, 4096,
    4096, 4096, 4096, 4096, 4096, 4096, 4096, 4096, 4096, 4096, 4096, 4096, 4096, 4096, 4096, 4096,
    4096, 4096, 4096, 4096, 4096, 4096, 4096, 4096, 4096, 4096, 4096, 4096, 4096, 4096, 4096, 4096,
    4096, 4096, 4096, 4096, 4096, 4096, 4096, 4096, 4096, 4096, 4096, 4096, 4096, 4096, 4096, 4096,
    4096, 4096, 4096, 4096, 4096, 4096, 4096, 4096, 4096, 4096, 4096, 4096, 4096,
];

fn value_of(digit: u8) -> u16
    ensures { result ≡ value_of digit }
{
    VALUES[digit as usize]
}

fn high_value_of(digit: u8) -> u16
    ensures { result ≡ 16 * value_of digit }
{
    HIGH_VALUES[digit as usize]
}

// Reads the pair at the place into the byte there. Answers the bits of its value beside those before.
#[inline(always)]
fn decode_at(word: &[u8], bytes: &mut [u8], at: usize, all: u16) -> u16
    requires pairs { length word.now ≡ 2 * length bytes.old }
    requires place { at < length bytes.old }
    requires bytes { IsBytes bytes.old }
    ensures long { length bytes.new ≡ length bytes.old }
    ensures read { result < 256 → take (2 * at) word.now ≡ encode_lower (take at bytes.old) →
        take (2 * (at + 1)) word.now ≡ encode_lower (take (at + 1) bytes.new) }
    ensures more { all ≤ result }
    ensures bytes { IsBytes bytes.new }
{
    let value = high_value_of(word[2 * at]) + value_of(word[2 * at + 1]);
    bytes[at] = (value % 256) as u8;
    all | value
}

/// Decodes pairs of digits into the buffer, which has a byte for each. True where there are only
/// digits in lower case; else what stands in the buffer says nothing.
#[inline(always)]
pub(crate) fn decode_lower(word: &[u8], bytes: &mut [u8]) -> bool
    requires pairs { length word.now ≡ 2 * length bytes.old }
    ensures read { result ≡ true → word.now ≡ encode_lower bytes.new }
    ensures bytes { IsBytes bytes.new }
{
    let mut all = 0u16;
    let mut at = 0;
    // Most words are whole messages, whose bytes are fours.
    'fours: while bytes.len() - at >= 4 {
        all = decode_at(word, bytes, at, all);
        all = decode_at(word, bytes, at + 1, all);
        all = decode_at(word, bytes, at + 2, all);
        all = decode_at(word, bytes, at + 3, all);
        at += 4;
    }
    'rest: while at < bytes.len() {
        all = decode_at(word, bytes, at, all);
        at += 1;
    }
    all < NO_DIGIT
}

//! Short lines: each is made from its end to its beginning in a small room, and written at once.
ghost use Rattle.std.specs.Prelude.{◌≡◌, ◌∷◌, ◌++◌, ◌+◌, ◌*◌, ◌≤◌, [], map, length, drop, IsTrue};
ghost use Rattle.std.specs.Prelude.{OnOk};
ghost use Rattle.std.specs.Prelude.{codes, string_bytes};
ghost use Rattle.std.specs.List.{join_with_byte, list_all};
ghost use Rattle.std.specs.Char.{is_ascii};
ghost use Rattle.std.specs.Fmt.{decimal};
ghost use Rattle.session_text.specs.Words.{hex_word};
ghost use Rattle.lines_transcript.specs.Told.{spaced};
ghost use Rattle.wl_wire.specs.Texts.{has_no_zero};

use itoa::write_digits;
use wio_core::NoMemory;

/// As many bytes of a group go into a short line.
pub(crate) const FEW: usize = 48;

// A short line has room in so many bytes.
const ROOM: usize = 128;

// A number goes before the end, behind a space: tells where the space stands.
#[inline(always)]
fn number_before(number: u32, room: &mut [u8], end: usize) -> usize
    requires place { 11 ≤ end }
    requires within { end ≤ length room.old }
    requires ascii { IsTrue (list_all is_ascii (drop end room.old)) }
    requires clean { IsTrue (has_no_zero (drop end room.old)) }
    ensures near { end ≤ result + 11 }
    ensures before { result ≤ end }
    ensures long { length room.new ≡ length room.old }
    ensures written { drop result room.new ≡ 32 ∷ (decimal number ++ drop end room.old) }
    ensures ascii { IsTrue (list_all is_ascii (drop result room.new)) }
    ensures clean { IsTrue (has_no_zero (drop result room.new)) }
{
    let at = write_digits(u64::from(number), room, end) - 1;
    room[at] = b' ';
    at
}

// Numbers go before the end, each behind a space: tells where the first space stands.
#[inline(always)]
fn numbers_before(numbers: &[u32], room: &mut [u8], end: usize) -> usize
    requires place { 11 * length numbers.now ≤ end }
    requires within { end ≤ length room.old }
    requires ascii { IsTrue (list_all is_ascii (drop end room.old)) }
    requires clean { IsTrue (has_no_zero (drop end room.old)) }
    ensures near { end ≤ result + 11 * length numbers.now }
    ensures before { result ≤ end }
    ensures long { length room.new ≡ length room.old }
    ensures written { drop result room.new ≡ spaced (map decimal numbers.now) ++ drop end room.old }
    ensures ascii { IsTrue (list_all is_ascii (drop result room.new)) }
    ensures clean { IsTrue (has_no_zero (drop result room.new)) }
{
    let mut at = end;
    let mut left = numbers.len();
    while left > 0 {
        left -= 1;
        at = number_before(numbers[left], room, at);
    }
    at
}

// A word goes before the end, behind a space: tells where the space stands.
#[inline(always)]
fn word_before(word: &str, room: &mut [u8], end: usize) -> usize
    requires place { length word.now + 1 ≤ end }
    requires within { end ≤ length room.old }
    requires word_ascii { IsTrue (list_all is_ascii word.now) }
    requires word_clean { IsTrue (has_no_zero word.now) }
    requires ascii { IsTrue (list_all is_ascii (drop end room.old)) }
    requires clean { IsTrue (has_no_zero (drop end room.old)) }
    ensures near { end ≡ result + length word.now + 1 }
    ensures long { length room.new ≡ length room.old }
    ensures written { drop result room.new ≡ 32 ∷ (word.now ++ drop end room.old) }
    ensures ascii { IsTrue (list_all is_ascii (drop result room.new)) }
    ensures clean { IsTrue (has_no_zero (drop result room.new)) }
{
    let bytes = word.as_bytes();
    let begin = end - bytes.len();
    room[begin..end].copy_from_slice(bytes);
    room[begin - 1] = b' ';
    begin - 1
}

// Bytes go before the end in hex, behind a space: tells where the space stands.
#[inline(always)]
fn hex_before(bytes: &[u8], room: &mut [u8], end: usize) -> usize
    requires some { 1 ≤ length bytes.now }
    requires place { 2 * length bytes.now + 1 ≤ end }
    requires within { end ≤ length room.old }
    ensures near { end ≡ result + 2 * length bytes.now + 1 }
    ensures long { length room.new ≡ length room.old }
    ensures written { drop result room.new ≡ 32 ∷ (hex_word bytes.now ++ drop end room.old) }
{
    let begin = end - 2 * bytes.len();
    let _ = hex::encode_to_slice(bytes, &mut room[begin..end]);
    room[begin - 1] = b' ';
    begin - 1
}

// The line is the number, and behind it the words that stand at the end of the room.
#[inline(always)]
fn write_line(number: u32, room: &mut [u8], at: usize, line: &mut String) -> Result<(), NoMemory>
    requires place { 10 ≤ at }
    requires within { at ≤ length room.old }
    requires ascii { IsTrue (list_all is_ascii (drop at room.old)) }
    requires clean { IsTrue (has_no_zero (drop at room.old)) }
    ensures value { OnOk result (string_bytes line.new ≡ decimal number ++ drop at room.old) }
    ensures clean { OnOk result (IsTrue (has_no_zero (string_bytes line.new))) }
{
    let begin = write_digits(u64::from(number), room, at);
    line.clear();
    line.push_str(unsafe { std::str::from_utf8_unchecked(&room[begin..]) })?;
    Ok(())
}

/// Writes the line of the number, a word and a few numbers over what `line` was.
pub(crate) fn write_numbers(
    number: u32,
    word: &str,
    numbers: &[u32],
    line: &mut String,
) -> Result<(), NoMemory>
    requires short { length word.now ≤ 23 }
    requires few { length numbers.now ≤ 5 }
    requires ascii { IsTrue (list_all is_ascii word.now) }
    requires clean { IsTrue (has_no_zero word.now) }
    ensures value { OnOk result (string_bytes line.new
        ≡ join_with_byte 32 (decimal number ∷ word.now ∷ map decimal numbers.now)) }
    ensures clean { OnOk result (IsTrue (has_no_zero (string_bytes line.new))) }
{
    let mut room = [0u8; ROOM];
    let at = numbers_before(numbers, &mut room, ROOM);
    let at = word_before(word, &mut room, at);
    write_line(number, &mut room, at, line)
}

/// Writes the line of two numbers, a word and a few numbers over what `line` was.
pub(crate) fn write_said(
    number: u32,
    to: u32,
    word: &str,
    numbers: &[u32],
    line: &mut String,
) -> Result<(), NoMemory>
    requires short { length word.now ≤ 23 }
    requires few { length numbers.now ≤ 5 }
    requires ascii { IsTrue (list_all is_ascii word.now) }
    requires clean { IsTrue (has_no_zero word.now) }
    ensures value { OnOk result (string_bytes line.new
        ≡ join_with_byte 32 (decimal number ∷ decimal to ∷ word.now ∷ map decimal numbers.now)) }
    ensures clean { OnOk result (IsTrue (has_no_zero (string_bytes line.new))) }
{
    let mut room = [0u8; ROOM];
    let at = numbers_before(numbers, &mut room, ROOM);
    let at = word_before(word, &mut room, at);
    let at = number_before(to, &mut room, at);
    write_line(number, &mut room, at, line)
}

/// Writes the line of a small group without tokens over what `line` was.
pub(crate) fn write_group(
    number: u32,
    peer: u32,
    group: &[u8],
    line: &mut String,
) -> Result<(), NoMemory>
    requires some { 1 ≤ length group.now }
    requires few { length group.now ≤ 48 }
    ensures value { OnOk result (string_bytes line.new ≡ join_with_byte 32
        (decimal number ∷ codes "out" ∷ decimal peer ∷ hex_word group.now ∷ [])) }
    ensures clean { OnOk result (IsTrue (has_no_zero (string_bytes line.new))) }
{
    let mut room = [0u8; ROOM];
    let at = hex_before(group, &mut room, ROOM);
    let at = number_before(peer, &mut room, at);
    let at = word_before("out", &mut room, at);
    write_line(number, &mut room, at, line)
}

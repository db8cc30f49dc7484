//! The line of a peer's few bytes, as most lines of a session are, read without a look at the
//! others: in form 1, and behind a stamp.
ghost use Rattle.std.specs.Prelude.{◌≡◌, ◌≤◌, ◌==◌, ◌∷◌, ◌++◌, length, take, codes, Some, IfSome};
ghost use Rattle.std.specs.List.{slice_split};
ghost use Rattle.broker_steps.specs.Ranges.{piece_limit};
ghost use Rattle.session_text.specs.declared.line.Form.TheVariants.{Session, Session2};
ghost use Rattle.session_text.specs.declared.line.Line.TheVariants as lines;
ghost use Rattle.session_text.specs.declared.line.SessionLine.TheVariants as sessions;
ghost use Rattle.session_text.specs.Reading.{line_of};
ghost use Rattle.session_text.specs.Words.{bytes_of};

use crate::cutting::first_word;
use crate::hex_digits::decode_lower;
use crate::line::LINE_LIMIT;
use crate::numerals::{parsed_long_number, parsed_number};
use broker_steps::Stamp;

// What stands behind the name of such a line.
#[inline(always)]
fn behind_name(line: &[u8]) -> Option<&[u8]>
    ensures { IfSome result (λ rest. line.now ≡ codes "bytes " ++ rest.now) }
{
    match line {
        [b'b', b'y', b't', b'e', b's', b' ', rest @ ..] => Some(rest),
        _ => None,
    }
}

// The bytes that the word spells go to the front of the buffer, if it has room for them: so many.
fn decode_into(word: &[u8], piece: &mut [u8]) -> Option<usize>
    requires few { length piece.old ≤ 4096 }
    ensures read { IfSome result (λ n. bytes_of piece_limit word.now ≡ Some (take n piece.new)) }
    ensures within { IfSome result (λ n. n ≤ length piece.new) }
{
    let length = word.len() / 2;
    if length == 0 || length > piece.len() || word.len() % 2 != 0 {
        return None;
    }
    if decode_lower(word, &mut piece[..length]) {
        Some(length)
    } else {
        None
    }
}

/// Reads the line of a session that is a peer's bytes, where there are as few as the buffer has room
/// for, at most 4,096: answers the peer's number and how many bytes it sent, which stand at the front
/// of the buffer. Where it finds none, `read_line` says what the line is.
pub fn read_piece(line: &[u8], piece: &mut [u8]) -> Option<(u32, usize)>
    requires few { length piece.old ≤ 4096 }
    ensures read { IfSome result (λ found. line_of Session line.now
        ≡ Some (lines.Session (sessions.Bytes found.0 (take found.1 piece.new)))) }
    ensures within { IfSome result (λ found. found.1 ≤ length piece.new) }
{
    if line.len() > LINE_LIMIT {
        return None;
    }
    let (digits, word) = first_word(behind_name(line)?)?;
    let number = parsed_number(digits)?;
    let length = decode_into(word, piece)?;
    Some((number, length))
}

/// The same of a line of form 2, which has a stamp before it.
pub fn read_stamped_piece(line: &[u8], piece: &mut [u8]) -> Option<(Stamp, u32, usize)>
    requires few { length piece.old ≤ 4096 }
    ensures read { IfSome result (λ found. line_of Session2 line.now
        ≡ Some (lines.Stamped found.0 (sessions.Bytes found.1 (take found.2 piece.new)))) }
    ensures within { IfSome result (λ found. found.2 ≤ length piece.new) }
{
    if line.len() > LINE_LIMIT {
        return None;
    }
    let (first, behind) = first_word(line)?;
    let (second, spoken) = first_word(behind)?;
    let moment = parsed_long_number(first)?;
    let author = parsed_long_number(second)?;
    let (digits, word) = first_word(behind_name(spoken)?)?;
    let number = parsed_number(digits)?;
    let length = decode_into(word, piece)?;
    Some((Stamp { moment, author }, number, length))
}

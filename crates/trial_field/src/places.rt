//! Places in a text, as byte offsets at which a character begins or the text ends.
ghost use Rattle.std.specs.Prelude.{◌≡◌, ℕ, ◌+◌, ◌-◌, ◌<◌, ◌≤◌, length, take, drop, IsCharBoundary};
ghost use Rattle.trial_field.specs.Characters.{first_char, last_char};
ghost use Rattle.trial_field.specs.Window.{IsWindow};

use crate::field::MAX_TEXT;

/// The most bytes before the cursor that a window shows.
const WINDOW_BEFORE: usize = 2_000;

/// The most bytes that a window has.
const WINDOW: usize = 4_000;

// Where the character before the cursor begins, and the cursor itself at the text's beginning.
pub(crate) fn character_before(text: &str, cursor: usize) -> usize
    requires { IsCharBoundary text.now cursor }
    ensures value { result + length (last_char (take cursor text.now)) ≡ cursor }
    ensures boundary { IsCharBoundary text.now result }
{
    if cursor == 0 {
        return 0;
    }
    text.floor_char_boundary(cursor - 1)
}

// Where the character behind the cursor ends, and the cursor itself at the text's end.
pub(crate) fn character_behind(text: &str, cursor: usize) -> usize
    requires { IsCharBoundary text.now cursor }
    ensures value { result ≡ cursor + length (first_char (drop cursor text.now)) }
    ensures boundary { IsCharBoundary text.now result }
{
    if cursor == text.len() {
        return cursor;
    }
    text.ceil_char_boundary(cursor + 1)
}

// The part of the text round the cursor that is sent.
pub(crate) fn window_around(text: &str, cursor: usize) -> (usize, usize)
    requires cursor { IsCharBoundary text.now cursor }
    requires small { length text.now ≤ MAX_TEXT }
    ensures window { IsWindow text.now cursor result.0 result.1 }
    ensures around { (result.0 ≤ cursor) × (cursor ≤ result.1) }
{
    let begin = text.ceil_char_boundary(cursor.saturating_sub(WINDOW_BEFORE));
    let end = text.floor_char_boundary(text.len().min(begin + WINDOW));
    (begin, end)
}

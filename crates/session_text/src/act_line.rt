//! The acts of an act list, by the number of a line's words.
ghost use Rattle.std.specs.Prelude.{map};
ghost use Rattle.session_text.specs.Reading.{one_word, two_words, three_words, four_words};
ghost use Rattle.session_text.specs.Reading.{five_words, six_words, act_of, Reads};

use crate::line::BadLine;
use crate::words::{cursor_text, is, number, signed, size, state, text};
use relay_model::{Act, EndCause, Keymap, Mods, Rect, Repeat, Size};
use std::alloc::Global;

#[tactic(auto, unfolding(crate::specs::Reading::one_word))]
fn read_one(key: &[u8]) -> Result<Act, BadLine>
    ensures { Reads result (one_word key.now) }
{
    if is(key, b"peer".as_slice()) {
        Ok(Act::Peer)
    } else if is(key, b"unfocus".as_slice()) {
        Ok(Act::Unfocus)
    } else {
        Err(BadLine::Grammar)
    }
}

#[tactic(auto, unfolding(crate::specs::Reading::two_words))]
fn read_two(key: &[u8], a: &[u8]) -> Result<Act, BadLine>
    ensures { Reads result (two_words key.now a.now) }
{
    if is(key, b"gone".as_slice()) {
        Ok(Act::Gone {
            peer: number(a)?,
            cause: EndCause::Gone,
        })
    } else if is(key, b"surface".as_slice()) {
        Ok(Act::Surface { peer: number(a)? })
    } else if is(key, b"field".as_slice()) {
        Ok(Act::Field { peer: number(a)? })
    } else if is(key, b"method".as_slice()) {
        Ok(Act::Method { peer: number(a)? })
    } else if is(key, b"grab".as_slice()) {
        Ok(Act::Grab { method: number(a)? })
    } else if is(key, b"drop".as_slice()) {
        Ok(Act::Drop { label: number(a)? })
    } else if is(key, b"focus".as_slice()) {
        Ok(Act::Focus {
            surface: number(a)?,
        })
    } else if is(key, b"enable".as_slice()) {
        Ok(Act::Enable { field: number(a)? })
    } else if is(key, b"disable".as_slice()) {
        Ok(Act::Disable { field: number(a)? })
    } else if is(key, b"commit".as_slice()) {
        Ok(Act::Commit { field: number(a)? })
    } else if is(key, b"vboard".as_slice()) {
        Ok(Act::VBoard { peer: number(a)? })
    } else {
        Err(BadLine::Grammar)
    }
}

#[tactic(auto, unfolding(crate::specs::Reading::three_words))]
fn read_three(alloc: Global, key: &[u8], a: &[u8], b: &[u8]) -> Result<Act, BadLine>
    ensures { Reads result (three_words key.now a.now b.now) }
{
    if is(key, b"popup".as_slice()) {
        let method = number(a)?;
        let surface = number(b)?;
        Ok(Act::Popup { method, surface })
    } else if is(key, b"screen".as_slice()) {
        let width = size(a)?;
        let height = size(b)?;
        Ok(Act::Screen {
            size: Size { width, height },
        })
    } else if is(key, b"cause".as_slice()) {
        let field = number(a)?;
        let cause = number(b)?;
        Ok(Act::Cause { field, cause })
    } else if is(key, b"mstring".as_slice()) {
        let method = number(a)?;
        let text = text(alloc, b)?;
        Ok(Act::MString { method, text })
    } else if is(key, b"mcommit".as_slice()) {
        let method = number(a)?;
        let serial = number(b)?;
        Ok(Act::MCommit { method, serial })
    } else if is(key, b"repeat".as_slice()) {
        let rate = signed(a)?;
        let delay = signed(b)?;
        Ok(Act::Repeat(Repeat { rate, delay }))
    } else {
        Err(BadLine::Grammar)
    }
}

#[tactic(auto, unfolding(crate::specs::Reading::four_words))]
fn read_four(key: &[u8], a: &[u8], b: &[u8], c: &[u8]) -> Result<Act, BadLine>
    ensures { Reads result (four_words key.now a.now b.now c.now) }
{
    if is(key, b"content".as_slice()) {
        let field = number(a)?;
        let hint = number(b)?;
        let purpose = number(c)?;
        Ok(Act::Content {
            field,
            hint,
            purpose,
        })
    } else if is(key, b"mdelete".as_slice()) {
        let method = number(a)?;
        let before = number(b)?;
        let after = number(c)?;
        Ok(Act::MDelete {
            method,
            before,
            after,
        })
    } else if is(key, b"key".as_slice()) {
        let time = number(a)?;
        let key = number(b)?;
        let state = state(c)?;
        Ok(Act::Key { time, key, state })
    } else if is(key, b"keymap".as_slice()) {
        let format = number(a)?;
        let token = number(b)?;
        let size = number(c)?;
        Ok(Act::Keymap(Keymap {
            format,
            token,
            size,
        }))
    } else {
        Err(BadLine::Grammar)
    }
}

#[tactic(auto, unfolding(crate::specs::Reading::five_words))]
fn read_five(
    alloc: Global,
    key: &[u8],
    a: &[u8],
    b: &[u8],
    c: &[u8],
    d: &[u8],
) -> Result<Act, BadLine>
    ensures { Reads result (five_words key.now a.now b.now c.now d.now) }
{
    if is(key, b"surround".as_slice()) {
        let field = number(a)?;
        let text = cursor_text(alloc, b)?;
        let cursor = signed(c)?;
        let anchor = signed(d)?;
        Ok(Act::Surround {
            field,
            text,
            cursor,
            anchor,
        })
    } else if is(key, b"mpreedit".as_slice()) {
        let method = number(a)?;
        let text = cursor_text(alloc, b)?;
        let begin = signed(c)?;
        let end = signed(d)?;
        Ok(Act::MPreedit {
            method,
            text,
            begin,
            end,
        })
    } else if is(key, b"mods".as_slice()) {
        let depressed = number(a)?;
        let latched = number(b)?;
        let locked = number(c)?;
        let group = number(d)?;
        Ok(Act::Mods(Mods {
            depressed,
            latched,
            locked,
            group,
        }))
    } else if is(key, b"vkeymap".as_slice()) {
        let board = number(a)?;
        let format = number(b)?;
        let token = number(c)?;
        let size = number(d)?;
        Ok(Act::VKeymap {
            board,
            keymap: Keymap {
                format,
                token,
                size,
            },
        })
    } else if is(key, b"vkey".as_slice()) {
        let board = number(a)?;
        let time = number(b)?;
        let key = number(c)?;
        let state = state(d)?;
        Ok(Act::VKey {
            board,
            time,
            key,
            state,
        })
    } else {
        Err(BadLine::Grammar)
    }
}

#[tactic(auto, unfolding(crate::specs::Reading::six_words))]
fn read_six(key: &[u8], a: &[u8], b: &[u8], c: &[u8], d: &[u8], e: &[u8]) -> Result<Act, BadLine>
    ensures { Reads result (six_words key.now a.now b.now c.now d.now e.now) }
{
    if is(key, b"area".as_slice()) {
        let surface = number(a)?;
        let x = signed(b)?;
        let y = signed(c)?;
        let width = size(d)?;
        let height = size(e)?;
        Ok(Act::Area {
            surface,
            rect: Rect {
                x,
                y,
                width,
                height,
            },
        })
    } else if is(key, b"rect".as_slice()) {
        let field = number(a)?;
        let x = signed(b)?;
        let y = signed(c)?;
        let width = signed(d)?;
        let height = signed(e)?;
        Ok(Act::Cursor {
            field,
            rect: Rect {
                x,
                y,
                width,
                height,
            },
        })
    } else if is(key, b"vmods".as_slice()) {
        let board = number(a)?;
        let depressed = number(b)?;
        let latched = number(c)?;
        let locked = number(d)?;
        let group = number(e)?;
        Ok(Act::VMods {
            board,
            mods: Mods {
                depressed,
                latched,
                locked,
                group,
            },
        })
    } else {
        Err(BadLine::Grammar)
    }
}

// The act of a line's words, the first of which names it.
pub fn read_act(alloc: Global, words: &[&[u8]]) -> Result<Act, BadLine>
    ensures { Reads result (act_of (map (λ w. w.now) words.now)) }
{
    match words {
        [key] => read_one(key),
        [key, a] => read_two(key, a),
        [key, a, b] => read_three(alloc, key, a, b),
        [key, a, b, c] => read_four(key, a, b, c),
        [key, a, b, c, d] => read_five(alloc, key, a, b, c, d),
        [key, a, b, c, d, e] => read_six(key, a, b, c, d, e),
        _ => Err(BadLine::Grammar),
    }
}

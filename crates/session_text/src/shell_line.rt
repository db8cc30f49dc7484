//! The shell's lines, by the number of a line's words.
ghost use Rattle.std.specs.Prelude.{map};
ghost use Rattle.session_text.specs.Reading.{Reads};
ghost use Rattle.session_text.specs.SessionReading.{one_shell_word, three_shell_words};
ghost use Rattle.session_text.specs.SessionReading.{four_shell_words, five_shell_words};
ghost use Rattle.session_text.specs.SessionReading.{seven_shell_words, shell_of};

use crate::line::BadLine;
use crate::words::{is, number, signed, size, state};
use broker_steps::ShellStep;
use relay_model::{Keymap, Mods, Rect, Repeat, Size};

#[tactic(auto, unfolding(crate::specs::SessionReading::one_shell_word))]
pub fn read_one(key: &[u8]) -> Result<ShellStep, BadLine>
    ensures { Reads result (one_shell_word key.now) }
{
    if is(key, b"unfocus".as_slice()) {
        Ok(ShellStep::Unfocus)
    } else {
        Err(BadLine::Grammar)
    }
}

#[tactic(auto, unfolding(crate::specs::SessionReading::three_shell_words))]
pub fn read_three(key: &[u8], a: &[u8], b: &[u8]) -> Result<ShellStep, BadLine>
    ensures { Reads result (three_shell_words key.now a.now b.now) }
{
    if is(key, b"focus".as_slice()) {
        let peer = number(a)?;
        let id = number(b)?;
        Ok(ShellStep::Focus { peer, id })
    } else if is(key, b"screen".as_slice()) {
        let width = size(a)?;
        let height = size(b)?;
        Ok(ShellStep::Screen {
            size: Size { width, height },
        })
    } else if is(key, b"repeat".as_slice()) {
        let rate = signed(a)?;
        let delay = signed(b)?;
        Ok(ShellStep::Repeat(Repeat { rate, delay }))
    } else {
        Err(BadLine::Grammar)
    }
}

#[tactic(auto, unfolding(crate::specs::SessionReading::four_shell_words))]
pub fn read_four(key: &[u8], a: &[u8], b: &[u8], c: &[u8]) -> Result<ShellStep, BadLine>
    ensures { Reads result (four_shell_words key.now a.now b.now c.now) }
{
    if is(key, b"key".as_slice()) {
        let time = number(a)?;
        let key = number(b)?;
        let state = state(c)?;
        Ok(ShellStep::Key { time, key, state })
    } else if is(key, b"keymap".as_slice()) {
        let format = number(a)?;
        let token = number(b)?;
        let size = number(c)?;
        Ok(ShellStep::Keymap(Keymap {
            format,
            token,
            size,
        }))
    } else {
        Err(BadLine::Grammar)
    }
}

#[tactic(auto, unfolding(crate::specs::SessionReading::five_shell_words))]
fn read_five(key: &[u8], a: &[u8], b: &[u8], c: &[u8], d: &[u8]) -> Result<ShellStep, BadLine>
    ensures { Reads result (five_shell_words key.now a.now b.now c.now d.now) }
{
    if is(key, b"mods".as_slice()) {
        let depressed = number(a)?;
        let latched = number(b)?;
        let locked = number(c)?;
        let group = number(d)?;
        Ok(ShellStep::Mods(Mods {
            depressed,
            latched,
            locked,
            group,
        }))
    } else {
        Err(BadLine::Grammar)
    }
}

#[tactic(auto, unfolding(crate::specs::SessionReading::seven_shell_words))]
fn read_seven(
    key: &[u8],
    a: &[u8],
    b: &[u8],
    c: &[u8],
    d: &[u8],
    e: &[u8],
    f: &[u8],
) -> Result<ShellStep, BadLine>
    ensures { Reads result (seven_shell_words key.now a.now b.now c.now d.now e.now f.now) }
{
    if is(key, b"area".as_slice()) {
        let peer = number(a)?;
        let id = number(b)?;
        let x = signed(c)?;
        let y = signed(d)?;
        let width = size(e)?;
        let height = size(f)?;
        Ok(ShellStep::Area {
            peer,
            id,
            rect: Rect {
                x,
                y,
                width,
                height,
            },
        })
    } else {
        Err(BadLine::Grammar)
    }
}

// The shell's step of a line's words, the first of which names it.
pub fn read_shell(words: &[&[u8]]) -> Result<ShellStep, BadLine>
    ensures { Reads result (shell_of (map (λ w. w.now) words.now)) }
{
    match words {
        [key] => read_one(key),
        [key, a, b] => read_three(key, a, b),
        [key, a, b, c] => read_four(key, a, b, c),
        [key, a, b, c, d] => read_five(key, a, b, c, d),
        [key, a, b, c, d, e, f] => read_seven(key, a, b, c, d, e, f),
        _ => Err(BadLine::Grammar),
    }
}

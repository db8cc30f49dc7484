//! Acts from text, and a relay that takes them.
ghost use Rattle.std.specs.Prelude.{◌≡◌, true};
ghost use Rattle.relay_core.specs.Fits.{FitsMessage};

use relay_core::{Post, Relay};
use relay_model::{Act, Told};
use session_text::{Form, Line, read_line};
use std::alloc::Global;
use std::process::Abort;
use std::test::Fail;
use wl_wire::NoMemory;

/// A method serves, and the field 3 holds the seat.
pub(crate) const OPENING: &str =
    "peer\nsurface 1\nfield 1\npeer\nmethod 4\nfocus 2\nenable 3\ncommit 3";

/// A post that writes what it is told.
#[derive(Drop)]
pub(crate) struct Tape {
    pub alloc: Global,
    pub text: String,
    pub failed: bool,
}

pub(crate) fn write(alloc: Global, told: &Told, text: &mut String) -> Result<(), NoMemory> {
    let line = format!(in alloc; "{told:?}\n")?;
    text.push_str(line.as_str())?;
    Ok(())
}

impl Post for Tape {
    ghost may_follow = { λ before told after. Unit {0} };

    fn tell(&mut self, told: &Told) {
        if write(self.alloc, told, &mut self.text).is_err() {
            self.failed = true;
        }
    }
}

// A message can carry the act's text.
fn fits(act: &Act) -> bool
    ensures { result ≡ true → FitsMessage act.now }
{
    match act {
        Act::Surround { text, .. } | Act::MPreedit { text, .. } => text.len() <= 4075,
        Act::MString { text, .. } => text.len() <= 4083,
        _ => true,
    }
}

/// The relay takes the act.
pub(crate) fn take(
    rt: &impl Abort,
    relay: &mut Relay,
    act: &Act,
    tape: &mut Tape,
) -> Result<(), NoMemory> {
    assert!(rt; fits(act) && relay.acts() < u32::MAX);
    relay.reserve(act)?;
    let _ = relay.step(act, tape);
    assert!(rt; !tape.failed);
    Ok(())
}

/// The act of the line, or none of another.
pub(crate) fn act_of(alloc: Global, line: &str) -> Result<Option<Act>, Fail> {
    match read_line(alloc, Form::Acts, line.as_bytes()) {
        Ok(Line::Act(act)) => Ok(Some(act)),
        _ => Ok(None),
    }
}

/// The acts of the lines.
pub(crate) fn acts_of(alloc: Global, lines: &str) -> Result<Vec<Act>, Fail> {
    let mut acts = Vec::new(alloc);
    for line in lines.lines() {
        match act_of(alloc, line)? {
            Some(act) => acts.push(act)?,
            None => return Err(Fail::new("a line is no act")),
        }
    }
    Ok(acts)
}

//! The keys of the seat's keyboard, and the grab that has them.
ghost use Rattle.std.specs.Prelude.{◌≡◌, ◌==◌, ◌≤◌, ◌<◌, ◌^◌, length, IfOk};
ghost use Rattle.std.specs.List.{count_by, list_any};
ghost use Rattle.relay_model.specs.Keys.{stands_on, standing, grab_stands, is_press, with_key};
ghost use Rattle.relay_model.specs.Keys.{pressed_keys, is_down, number_down, is_first_press};
ghost use Rattle.relay_model.specs.Keys.{first_went, to_standing, as_first, key_route, is_refused};
ghost use Rattle.relay_model.specs.Keys.{last_keymap, last_repeat, last_mods};
ghost use Rattle.relay_model.specs.Activation.{serving};
ghost use Rattle.relay_plain.specs.Newest.{at_newest};
ghost use Rattle.relay_plain.specs.Keys.{goes_of};

use crate::objects::{is_at, is_same, method_of, next};
use crate::seat::serving_after;
use relay_model::{Act, Keymap, Label, Mods, Repeat};
use std::alloc::Global;
use wio_core::NoMemory;

// The grab stands on, where it is alive and its method is the one that serves.
fn stands_on(log: &[Act], grab: Option<Label>, method: Option<Label>) -> Option<Label>
    requires { method ≡ serving log.now }
    ensures { result ≡ stands_on log.now grab }
{
    match grab {
        Some(there) if is_same(method_of(log, there), method) => grab,
        _ => None,
    }
}

// The grab that stands after the newest act, where this one stood before.
fn standing_after(
    log: &[Act],
    before: Option<Label>,
    method_before: Option<Label>,
    method: Option<Label>,
) -> Option<Label>
    requires short { length log.now < 2 ^ 32 }
    requires before { before ≡ at_newest (λ act older. standing older) before log.now }
    requires method_before { method_before ≡ at_newest (λ act older. serving older) method_before
        log.now }
    requires method { method ≡ serving log.now }
    ensures { result ≡ standing log.now }
{
    match log {
        [] => None,
        [act, older @ ..] => match act {
            Act::Grab { method: maker } => {
                if before.is_none() && is_at(method_before, *maker) {
                    Some(next(older) as u32)
                } else {
                    before
                }
            }
            _ => stands_on(log, before, method),
        },
    }
}

// The grab that stands, and the method that serves.
fn standing_and_serving(log: &[Act]) -> (Option<Label>, Option<Label>)
    requires { length log.now < 2 ^ 32 }
    ensures standing { result.0 ≡ standing log.now }
    ensures serving { result.1 ≡ serving log.now }
{
    match log {
        [] => (None, None),
        [_, older @ ..] => {
            let (before, method_before) = standing_and_serving(older);
            let method = serving_after(log, method_before);
            (standing_after(log, before, method_before, method), method)
        }
    }
}

/// The grab that stands: one that the serving method made while none stood; one made while another stands never does.
pub fn standing(log: &[Act]) -> Option<Label>
    requires { length log.now < 2 ^ 32 }
    ensures { result ≡ standing log.now }
{
    standing_and_serving(log).0
}

// The grab stands.
fn grab_stands(log: &[Act], grab: Label) -> bool
    requires { length log.now < 2 ^ 32 }
    ensures { result ≡ grab_stands log.now grab }
{
    is_at(standing(log), grab)
}

// A key's state is that of a press (`wl_keyboard.key_state`).
pub(crate) fn is_press(state: u32) -> bool
    ensures { result ≡ is_press state }
{
    state == 1
}

fn has_key(key: u32, keys: &[u32]) -> bool
    ensures { result ≡ list_any (λ k. key == k) keys.now }
{
    keys.iter().any(|other| key == *other)
}

pub(crate) fn with_key(key: u32, keys: Vec<u32>) -> Result<Vec<u32>, NoMemory>
    ensures { IfOk result (λ all. all.items ≡ with_key key keys.items) }
{
    if has_key(key, &keys) {
        return Ok(keys);
    }
    let mut keys = keys;
    keys.insert(0, key)?;
    Ok(keys)
}

// The keys that were pressed, each once.
fn pressed_keys(alloc: Global, log: &[Act]) -> Result<Vec<u32>, NoMemory>
    ensures { IfOk result (λ keys. keys.items ≡ pressed_keys log.now) }
{
    match log {
        [] => Ok(Vec::new(alloc)),
        [act, older @ ..] => {
            let keys = pressed_keys(alloc, older)?;
            match act {
                Act::Key { key, state, .. } if is_press(*state) => with_key(*key, keys),
                _ => Ok(keys),
            }
        }
    }
}

// The key is down: its last act pressed it.
fn is_down(log: &[Act], key: u32) -> bool
    ensures { result ≡ is_down log.now key }
{
    match log {
        [] => false,
        [act, older @ ..] => match act {
            Act::Key {
                key: named,
                state,
                ..
            } if key == *named => is_press(*state),
            _ => is_down(older, key),
        },
    }
}

// How many of the keys are down.
fn count_down(log: &[Act], keys: &[u32]) -> usize
    ensures number { result ≡ count_by (is_down log.now) keys.now }
    ensures within { result ≤ length keys.now }
{
    match keys {
        [] => 0,
        [key, rest @ ..] => {
            if is_down(log, *key) {
                count_down(log, rest) + 1
            } else {
                count_down(log, rest)
            }
        }
    }
}

// How many keys are down.
fn number_down(alloc: Global, log: &[Act]) -> Result<usize, NoMemory>
    ensures { IfOk result (λ number. number ≡ number_down log.now) }
{
    let keys = pressed_keys(alloc, log)?;
    Ok(count_down(log, &keys))
}

// The act presses a key that is up.
fn is_first_press(log: &[Act], key: u32, state: u32) -> bool
    ensures { result ≡ is_first_press log.now key state }
{
    is_press(state) && !is_down(log, key)
}

// Of a key that is down: the grab that stood at its first press since it was last up, none where that passed to the
// shell.
fn first_went(log: &[Act], key: u32) -> Option<Label>
    requires { length log.now < 2 ^ 32 }
    ensures { result ≡ first_went log.now key }
{
    match log {
        [] => None,
        [act, older @ ..] => match act {
            Act::Key {
                key: named,
                state,
                ..
            } if key == *named && is_first_press(older, key, *state) => standing(older),
            _ => first_went(older, key),
        },
    }
}

/// Where a press or a release of a key goes.
#[derive(Clone, Copy)]
pub enum Goes {
    /// To the grab with this label.
    ToGrab(Label),
    /// Past a grab, to the shell.
    ToShell,
    /// Nowhere: the grab that it belonged to stands no more.
    Nowhere,
    /// Nowhere: 64 keys are down, and this is another.
    Refused,
}

// To the grab that stands, else to the shell.
pub(crate) fn to_standing(grab: Option<Label>) -> Goes
    ensures { goes_of result ≡ to_standing grab }
{
    match grab {
        Some(grab) => Goes::ToGrab(grab),
        None => Goes::ToShell,
    }
}

// Where the first press went, and nowhere where that is a grab that doesn't stand.
pub(crate) fn as_first(log: &[Act], grab: Option<Label>) -> Goes
    requires { length log.now < 2 ^ 32 }
    ensures { goes_of result ≡ as_first log.now grab }
{
    match grab {
        Some(grab) if grab_stands(log, grab) => Goes::ToGrab(grab),
        Some(_) => Goes::Nowhere,
        None => Goes::ToShell,
    }
}

/// Where the key goes: a key that is down to where its first press went, a release of another to
/// the shell, a first press to the grab that stands, and it is refused where 64 keys are down.
pub fn key_route(alloc: Global, log: &[Act], key: u32, state: u32) -> Result<Goes, NoMemory>
    requires { length log.now < 2 ^ 32 }
    ensures { IfOk result (λ goes. goes_of goes ≡ key_route log.now key state) }
{
    let goes = if is_down(log, key) {
        as_first(log, first_went(log, key))
    } else if !is_press(state) {
        Goes::ToShell
    } else if number_down(alloc, log)? < 64 {
        to_standing(standing(log))
    } else {
        Goes::Refused
    };
    Ok(goes)
}

/// The press is refused: 64 keys are down, and this is another.
pub fn is_refused(alloc: Global, log: &[Act], key: u32, state: u32) -> Result<bool, NoMemory>
    ensures { IfOk result (λ refused. refused ≡ is_refused log.now key state) }
{
    let number = number_down(alloc, log)?;
    Ok(is_first_press(log, key, state) && !(number < 64))
}

/// The keymap that the shell told last.
pub fn last_keymap(log: &[Act]) -> Option<Keymap>
    ensures { result ≡ last_keymap log.now }
{
    match log {
        [] => None,
        [act, older @ ..] => match act {
            Act::Keymap(keymap) => Some(*keymap),
            _ => last_keymap(older),
        },
    }
}

/// The repeat that the shell told last.
pub fn last_repeat(log: &[Act]) -> Option<Repeat>
    ensures { result ≡ last_repeat log.now }
{
    match log {
        [] => None,
        [act, older @ ..] => match act {
            Act::Repeat(repeat) => Some(*repeat),
            _ => last_repeat(older),
        },
    }
}

/// The modifiers that the shell told last.
pub fn last_mods(log: &[Act]) -> Option<Mods>
    ensures { result ≡ last_mods log.now }
{
    match log {
        [] => None,
        [act, older @ ..] => match act {
            Act::Mods(mods) => Some(*mods),
            _ => last_mods(older),
        },
    }
}

//! The keys that are down, in a list of at most 64.
ghost use Rattle.std.specs.Prelude.{◌≡◌, None, true};
ghost use Rattle.std.specs.Option.{option_map};
ghost use Rattle.std.specs.Vec.{vec_len, vec_capacity};
ghost use Rattle.std.specs.FinMap as map;
ghost use Rattle.kbd_grab.specs.Keys.{to_standing, as_first};
ghost use Rattle.kbd_grab.specs.Keyboard.{turned_at, routed_at, refused_at};
ghost use Rattle.kbd_grab.specs.DownList.{keys_of, IsTidy};

use crate::keyboard::{Label, Route};

/// How many keys may be down at a time.
pub const KEYS_DOWN: usize = 64;

// A key that is down, and the grab that stood at its first press, none where that passed to the shell.
#[derive(Clone, Copy, Debug, PartialEq, Eq)]
pub struct Down {
    pub key: u32,
    pub went: Option<Label>,
}

// A press (`pressed`) or a release of `key` while the grab `standing` stands, or none: where it goes. A first press
// goes to `opens`.
pub fn turn(
    down: &mut Vec<Down>,
    opens: Option<Label>,
    standing: Option<Label>,
    key: u32,
    pressed: bool,
) -> Route
    requires { IsTidy down.old.items (vec_capacity down.old) }
    ensures route { let keys = keys_of down.old.items in
        result ≡ routed_at (map.get keys key) opens standing (map.len keys) pressed }
    ensures keys { let keys = keys_of down.old.items in
        keys_of down.new.items ≡ turned_at (map.get keys key) opens keys key pressed }
    ensures tidy { IsTidy down.new.items (vec_capacity down.new) }
{
    match (find_down(down, key), pressed) {
        (Some(held), true) => as_first(standing, held.went),
        (Some(held), false) => {
            release(down, key);
            as_first(standing, held.went)
        }
        (None, true) => press(down, opens, key),
        (None, false) => Route::Pass,
    }
}

// A press of a key that is up, while as many are down as may be.
pub fn refuses(down: &Vec<Down>, key: u32, pressed: bool) -> bool
    requires { IsTidy down.now.items (vec_capacity down.now) }
    ensures { let keys = keys_of down.now.items in
        result ≡ refused_at (map.get keys key) (map.len keys) pressed }
{
    pressed && find_down(down, key).is_none() && down.len() >= KEYS_DOWN
}

// A press of a key that is up.
fn press(down: &mut Vec<Down>, opens: Option<Label>, key: u32) -> Route
    requires tidy { IsTidy down.old.items (vec_capacity down.old) }
    requires up { map.get (keys_of down.old.items) key ≡ None }
    ensures route { result ≡ routed_at None opens None (map.len (keys_of down.old.items)) true }
    ensures keys { keys_of down.new.items ≡ turned_at None opens (keys_of down.old.items) key
        true }
    ensures tidy { IsTidy down.new.items (vec_capacity down.new) }
{
    if down.len() < KEYS_DOWN {
        let _ = down.push(Down { key, went: opens });
        to_standing(opens)
    } else {
        Route::TooMany
    }
}

// A key that is down comes up.
fn release(down: &mut Vec<Down>, key: u32)
    requires { IsTidy down.old.items (vec_capacity down.old) }
    ensures keys { keys_of down.new.items ≡ map.remove (keys_of down.old.items) key }
    ensures tidy { IsTidy down.new.items (vec_capacity down.new) }
{
    down.retain(|other| other.key != key);
}

fn find_down(down: &[Down], key: u32) -> Option<Down>
    ensures { option_map (λ d. d.went) result ≡ map.get (keys_of down.now) key }
{
    down.iter().find(|other| other.key == key).copied()
}

// To the grab that stands, else to the shell.
fn to_standing(standing: Option<Label>) -> Route
    ensures { result ≡ to_standing standing }
{
    match standing {
        None => Route::Pass,
        Some(label) => Route::ToGrab(label),
    }
}

// Where a key goes whose first press `went` to that grab or passed.
fn as_first(standing: Option<Label>, went: Option<Label>) -> Route
    ensures { result ≡ as_first standing went }
{
    match (standing, went) {
        (_, None) => Route::Pass,
        (Some(standing), Some(label)) if standing == label => Route::ToGrab(label),
        (_, Some(_)) => Route::Nowhere,
    }
}

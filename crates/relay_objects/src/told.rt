//! What popups, grabs and the shell are told.
ghost use Rattle.relay_model.specs.Popups.{place_told};
ghost use Rattle.relay_model.specs.Told.{to_grab};
ghost use Rattle.relay_objects.specs.Reached.{Reached};
ghost use Rattle.relay_objects.specs.Keyboard.{keymap_told, repeat_told, mods_told, keyboard_told};
ghost use Rattle.relay_objects.specs.Keyboard.{key_told, board_mods_told};

use crate::post::Post;
use kbd_grab::{Grab, Keymap, Mods, Repeat, Route};
use popup_place::Placed;
use relay_model::{Label, Said, Told};

/// The label of the shell.
const SHELL: Label = 0;

/// Tells the grab that stands from its making on the last keymap, repeat and modifiers, as far as there were any.
#[tactic(auto, using(crate::proofs::TellsAppend::reached_append))]
pub fn tell_keyboard<P: Post>(grab: Label, keys: &Grab, post: &mut P)
    ensures { Reached P.may_follow post.old (keyboard_told grab keys.now) post.new }
{
    tell_keymap(grab, keys.last_keymap(), post);
    tell_repeat(grab, keys.last_repeat(), post);
    tell_mods(grab, keys.last_mods(), post);
}

fn tell_keymap<P: Post>(grab: Label, keymap: Option<Keymap>, post: &mut P)
    ensures { Reached P.may_follow post.old (keymap_told grab keymap) post.new }
{
    if let Some(keymap) = keymap {
        post.tell(&Told {
            to: grab,
            event: Said::Keymap(keymap),
        });
    }
}

fn tell_repeat<P: Post>(grab: Label, repeat: Option<Repeat>, post: &mut P)
    ensures { Reached P.may_follow post.old (repeat_told grab repeat) post.new }
{
    if let Some(repeat) = repeat {
        post.tell(&Told {
            to: grab,
            event: Said::Repeat(repeat),
        });
    }
}

fn tell_mods<P: Post>(grab: Label, mods: Option<Mods>, post: &mut P)
    ensures { Reached P.may_follow post.old (mods_told grab mods) post.new }
{
    if let Some(mods) = mods {
        post.tell(&Told {
            to: grab,
            event: Said::Mods { serial: grab, mods },
        });
    }
}

/// Tells the grab that stands, if one does.
pub fn tell_grab<P: Post>(grab: Option<Label>, event: Said, post: &mut P)
    ensures { Reached P.may_follow post.old (to_grab grab event) post.new }
{
    if let Some(grab) = grab {
        post.tell(&Told { to: grab, event });
    }
}

/// Tells the grab or the shell a key, as its route says.
pub fn tell_key<P: Post>(route: Route, serial: u32, time: u32, key: u32, state: u32, post: &mut P)
    ensures { Reached P.may_follow post.old (key_told serial time key state route) post.new }
{
    match route {
        Route::ToGrab(grab) => post.tell(&Told {
            to: grab,
            event: Said::Key {
                serial,
                time,
                key,
                state,
            },
        }),
        Route::Pass => post.tell(&Told {
            to: SHELL,
            event: Said::Pass { time, key, state },
        }),
        Route::Nowhere | Route::TooMany => {}
    }
}

/// Tells the grab or the shell a board's modifiers, as their route says.
pub fn tell_board_mods<P: Post>(route: Route, serial: u32, mods: Mods, post: &mut P)
    ensures { Reached P.may_follow post.old (board_mods_told serial mods route) post.new }
{
    match route {
        Route::ToGrab(grab) => post.tell(&Told {
            to: grab,
            event: Said::Mods { serial, mods },
        }),
        Route::Pass => post.tell(&Told {
            to: SHELL,
            event: Said::VMods(mods),
        }),
        Route::Nowhere | Route::TooMany => {}
    }
}

/// Tells the popup where the cursor rectangle is, and the shell where the popup stands.
pub fn tell_place<P: Post>(popup: Label, placed: &Placed, post: &mut P)
    ensures { Reached P.may_follow post.old (place_told popup placed.now) post.new }
{
    post.tell(&Told {
        to: popup,
        event: Said::PopupRect {
            x: placed.seen.x,
            y: placed.seen.y,
            width: placed.seen.width,
            height: placed.seen.height,
        },
    });
    post.tell(&Told {
        to: SHELL,
        event: Said::Placed {
            popup,
            x: placed.x,
            y: placed.y,
        },
    });
}

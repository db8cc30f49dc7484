//! An act's own events.
ghost use Rattle.std.specs.Prelude.{◌≡◌, ◌+◌, ◌<◌, ◌^◌, [], length, map, if◌then◌else◌};
ghost use Rattle.relay_model.specs.Objects.{next};
ghost use Rattle.relay_model.specs.Globals.{global_told, globals_told};
ghost use Rattle.relay_model.specs.Hold.{holder};
ghost use Rattle.relay_model.specs.Activation.{serving, fresh};
ghost use Rattle.relay_model.specs.Told.{to, to_holder, deleted, key_told, keymap_said};
ghost use Rattle.relay_model.specs.Told.{repeat_said, mods_said, keyboard_said, to_grab, synced};
ghost use Rattle.relay_model.specs.Told.{board_mods_told, own};
ghost use Rattle.relay_plain.specs.Newest.{at_newest};
ghost use Rattle.relay_model.specs.Keys.{key_route, last_keymap, last_repeat, last_mods};
ghost use Rattle.relay_plain.specs.Keys.{goes_of};
ghost use Rattle.relay_plain.specs.Telling.{Tells};
ghost use Rattle.relay_plain.specs.BoardKey.{board_key_told};

use crate::activation::fresh;
use crate::batch::tell_group;
use crate::boards::{board_route, grab_for};
use crate::hold::holder;
use crate::keys::{Goes, key_route, last_keymap, last_mods, last_repeat, standing};
use crate::objects::{is_at, next, peer_of};
use crate::popups::{tell_each_popup, tell_popup};
use crate::seat::serving;
use crate::telling::{SHELL, tell};
use relay_model::{Act, Interface, Label, Mods, Role, Said, Told};
use std::alloc::Global;
use wio_core::NoMemory;

// Tells the field that holds the seat what a method's commit relays to it.
fn tell_holder(
    alloc: Global,
    act: &Act,
    older: &[Act],
    told: &mut Vec<Told>,
) -> Result<(), NoMemory>
    requires { length older.now < 2 ^ 32 }
    ensures { Tells result told.old told.new (to_holder act.now older.now (holder older.now)) }
{
    match holder(older) {
        Some(field) => tell_group(alloc, act, older, field, told),
        None => Ok(()),
    }
}

// The same, where the commit is fresh.
fn tell_fresh(alloc: Global, act: &Act, older: &[Act], told: &mut Vec<Told>) -> Result<(), NoMemory>
    requires { length older.now < 2 ^ 32 }
    ensures { Tells result told.old told.new ((if fresh act.now older.now then to_holder act.now
        older.now (holder older.now) else [])) }
{
    if fresh(alloc, act, older)? {
        tell_holder(alloc, act, older, told)
    } else {
        Ok(())
    }
}

// Tells the peer that the id of its object is free again.
fn tell_deleted(label: Label, peer: Option<Label>, told: &mut Vec<Told>) -> Result<(), NoMemory>
    ensures { Tells result told.old told.new (deleted label peer) }
{
    match peer {
        Some(peer) => tell(peer, Said::DeleteId { label }, told),
        None => Ok(()),
    }
}

// Tells a key, with the number of its act as its serial.
fn tell_key(
    serial: u32,
    time: u32,
    key: u32,
    state: u32,
    goes: Goes,
    told: &mut Vec<Told>,
) -> Result<(), NoMemory>
    ensures { Tells result told.old told.new (key_told serial time key state (goes_of goes)) }
{
    match goes {
        Goes::ToGrab(grab) => tell(
            grab,
            Said::Key {
                serial,
                time,
                key,
                state,
            },
            told,
        ),
        Goes::ToShell => tell(SHELL, Said::Pass { time, key, state }, told),
        Goes::Nowhere | Goes::Refused => Ok(()),
    }
}

// Tells a key where it goes after these acts.
fn tell_routed(
    alloc: Global,
    older: &[Act],
    time: u32,
    key: u32,
    state: u32,
    told: &mut Vec<Told>,
) -> Result<(), NoMemory>
    requires { length older.now + 1 < 2 ^ 32 }
    ensures { Tells result told.old told.new (key_told (next older.now) time key state
        (key_route older.now key state)) }
{
    let goes = key_route(alloc, older, key, state)?;
    tell_key(next(older) as u32, time, key, state, goes, told)
}

// Tells a key of the board where it goes after these acts.
fn tell_board_key(
    alloc: Global,
    older: &[Act],
    act: &Act,
    told: &mut Vec<Told>,
) -> Result<(), NoMemory>
    requires { length older.now + 1 < 2 ^ 32 }
    ensures { Tells result told.old told.new (board_key_told act.now older.now) }
{
    match act {
        Act::VKey {
            board,
            time,
            key,
            state,
        } => {
            let goes = board_route(alloc, older, *board, *key, *state)?;
            tell_key(next(older) as u32, *time, *key, *state, goes, told)
        }
        _ => Ok(()),
    }
}

// Tells modifiers of a board, with the number of their act as their serial.
fn tell_board_mods(
    serial: u32,
    mods: Mods,
    grab: Option<Label>,
    told: &mut Vec<Told>,
) -> Result<(), NoMemory>
    ensures { Tells result told.old told.new (board_mods_told serial mods grab) }
{
    match grab {
        Some(grab) => tell(grab, Said::Mods { serial, mods }, told),
        None => tell(SHELL, Said::VMods(mods), told),
    }
}

fn tell_keymap(grab: Label, log: &[Act], told: &mut Vec<Told>) -> Result<(), NoMemory>
    ensures { Tells result told.old told.new (map (to grab) (keymap_said (last_keymap log.now))) }
{
    match last_keymap(log) {
        Some(keymap) => tell(grab, Said::Keymap(keymap), told),
        None => Ok(()),
    }
}

fn tell_repeat(grab: Label, log: &[Act], told: &mut Vec<Told>) -> Result<(), NoMemory>
    ensures { Tells result told.old told.new (map (to grab) (repeat_said (last_repeat log.now))) }
{
    match last_repeat(log) {
        Some(repeat) => tell(grab, Said::Repeat(repeat), told),
        None => Ok(()),
    }
}

fn tell_mods(grab: Label, log: &[Act], told: &mut Vec<Told>) -> Result<(), NoMemory>
    ensures { Tells result told.old told.new (map (to grab) (mods_said grab (last_mods log.now))) }
{
    match last_mods(log) {
        Some(mods) => tell(grab, Said::Mods { serial: grab, mods }, told),
        None => Ok(()),
    }
}

// Tells a grab that stands from its making on the last keymap, repeat and modifiers, as far as there were any.
fn tell_keyboard(grab: Label, log: &[Act], told: &mut Vec<Told>) -> Result<(), NoMemory>
    ensures { Tells result told.old told.new (map (to grab) (keyboard_said grab log.now)) }
{
    tell_keymap(grab, log, told)?;
    tell_repeat(grab, log, told)?;
    tell_mods(grab, log, told)
}

fn tell_grab(grab: Option<Label>, event: Said, told: &mut Vec<Told>) -> Result<(), NoMemory>
    ensures { Tells result told.old told.new (to_grab grab event) }
{
    match grab {
        Some(grab) => tell(grab, event, told),
        None => Ok(()),
    }
}

fn tell_offers(
    registry: Label,
    offers: &[(u32, Interface)],
    told: &mut Vec<Told>,
) -> Result<(), NoMemory>
    ensures { Tells result told.old told.new (map (global_told registry) offers.now) }
{
    match offers {
        [] => Ok(()),
        [offer, rest @ ..] => {
            let event = Said::Global {
                name: offer.0,
                interface: offer.1,
                version: 1,
            };
            tell(registry, event, told)?;
            tell_offers(registry, rest, told)
        }
    }
}

// Tells a new registry the globals of its peer's role.
fn tell_globals(registry: Label, role: Role, told: &mut Vec<Told>) -> Result<(), NoMemory>
    ensures { Tells result told.old told.new (globals_told registry role) }
{
    tell_offers(registry, role.globals(), told)
}

// Tells the callback of a sync its value, and its peer that the id is free again.
fn tell_synced(callback: Label, peer: Label, told: &mut Vec<Told>) -> Result<(), NoMemory>
    ensures { Tells result told.old told.new (synced callback peer) }
{
    tell(callback, Said::CallbackDone { value: 0 }, told)?;
    tell(peer, Said::DeleteId { label: callback }, told)
}

// Tells what the newest act tells besides what it says of focus and hold.
pub fn tell_own(alloc: Global, log: &[Act], told: &mut Vec<Told>) -> Result<(), NoMemory>
    requires { length log.now < 2 ^ 32 }
    ensures { Tells result told.old told.new (at_newest own [] log.now) }
{
    match log {
        [] => Ok(()),
        [act, older @ ..] => {
            let number = next(older) as u32;
            match act {
                Act::Method { .. } if serving(older).is_some() => {
                    tell(number, Said::Unavailable, told)
                }
                Act::Popup { .. } => tell_popup(log, number, told),
                Act::Grab { .. } if is_at(standing(log), number) => {
                    tell_keyboard(number, older, told)
                }
                Act::Drop { label } => tell_deleted(*label, peer_of(older, *label), told),
                Act::Area { .. } | Act::Screen { .. } => tell_each_popup(alloc, log, told),
                Act::Commit { field } if is_at(holder(log), *field) => {
                    tell_each_popup(alloc, log, told)
                }
                Act::MCommit { .. } => tell_fresh(alloc, act, older, told),
                Act::Key { time, key, state } => {
                    tell_routed(alloc, older, *time, *key, *state, told)
                }
                Act::Mods(mods) => {
                    let event = Said::Mods {
                        serial: number,
                        mods: *mods,
                    };
                    tell_grab(standing(older), event, told)
                }
                Act::Keymap(keymap) => tell_grab(standing(older), Said::Keymap(*keymap), told),
                Act::Repeat(repeat) => tell_grab(standing(older), Said::Repeat(*repeat), told),
                Act::VKey { .. } => tell_board_key(alloc, older, act, told),
                Act::VMods { board, mods } => {
                    tell_board_mods(number, *mods, grab_for(older, *board), told)
                }
                Act::Registry { role, .. } => tell_globals(number, *role, told),
                Act::Sync { peer } => tell_synced(number, *peer, told),
                Act::Seat { .. } => tell(number, Said::Capabilities { value: 0 }, told),
                Act::Bad {
                    peer,
                    fault,
                    object,
                } => {
                    let event = Said::Error {
                        object: *object,
                        fault: *fault,
                    };
                    tell(*peer, event, told)
                }
                _ => Ok(()),
            }
        }
    }
}

//! The events that the method's client receives.
ghost use Rattle.std.specs.Prelude.{◌≡◌, ◌+◌, ◌*◌, ◌≤◌, List, ℕ, ◌++◌, length, drop, vec_len};
ghost use Rattle.std.specs.Prelude.{IfSome, IfNone, OnOk, OnErr};
ghost use Rattle.std.specs.Bool.{OnTrue, OnFalse};
ghost use Rattle.wl_wire.specs.Messages.{IsPartial};
ghost use Rattle.wl_wire.specs.Texts.{IsBytes};
ghost use Rattle.client_side.specs.Events.{object_in, method_objects, IsEventTo};
ghost use Rattle.client_side.specs.MethodState.{after_event};
ghost use Rattle.client_side.specs.Client.{Takes, GoesWrong};
ghost use Rattle.client_side.specs.Heard.{Reached, Hears, HearsWrong, came};
ghost use Rattle.wl_proto.specs.declared.event.Event as events;

use crate::events::event_to;
use crate::hearer::MethodHearer;
use crate::held::cut_front;
use crate::method_state::MethodState;
use crate::objects::method_object;
use compose_method::Typist;
use wio_core::NoMemory;
use wl_wire::{Front, Raw, front_of};

/// The most bytes that a received byte makes the method's client send: a message of at least 8
/// bytes makes it send 8,226 at most.
const SENT_A_BYTE: usize = 1_029;

// Takes the event that a whole message spells; false where it spells none of a live object.
fn take_message<T: Typist, H: MethodHearer>(
    state: &mut MethodState<T>,
    raw: &Raw<'_>,
    hearer: &mut H,
) -> bool
    requires short { length raw.now.body.now ≤ 4088 }
    requires room { 8226 ≤ state.old.room }
    ensures taken { OnTrue result ((e : events.Event)
        × IsEventTo (object_in method_objects raw.now.id) raw.now.opcode raw.now.body.now e
        × (state.new.state ≡ after_event T.meanings e state.old.state)
        × Reached H.may_follow hearer.old (came e state.old.state) hearer.new) }
    ensures refused { OnFalse result ((e : events.Event)
        → IsEventTo (object_in method_objects raw.now.id) raw.now.opcode raw.now.body.now e → ⊥) }
    ensures unchanged { OnFalse result (state.new.state ≡ state.old.state) }
    ensures unheard { OnFalse result (hearer.new ≡ hearer.old) }
    ensures room { state.old.room ≤ state.new.room + 8226 }
{
    let Some(interface) = method_object(raw.id) else {
        return false;
    };
    let Some(event) = event_to(interface, raw) else {
        return false;
    };
    state.take(&event, hearer);
    true
}

// Takes the events at the front of the bytes, and says how many bytes they have; `None` where the
// bytes go wrong.
fn take_events<T: Typist, H: MethodHearer>(
    state: &mut MethodState<T>,
    bytes: &[u8],
    hearer: &mut H,
) -> Option<usize>
    requires { 1029 * length bytes.now ≤ state.old.room }
    ensures taken { IfSome result (λ n. (n ≤ length bytes.now)
        × Takes method_objects (after_event T.meanings) state.old.state state.new.state bytes.now
        (drop n bytes.now)
        × IsPartial (drop n bytes.now)) }
    ensures wrong { IfNone result
        (GoesWrong method_objects (after_event T.meanings) state.old.state state.new.state
        bytes.now) }
    ensures fits { IfNone result (IsBytes bytes.now) }
    ensures heard { (rest : List ℕ) × Hears method_objects
        (after_event T.meanings) came H.may_follow
        state.old.state state.new.state bytes.now rest hearer.old hearer.new }
    ensures heard_all { IfSome result (λ n.
        Hears method_objects (after_event T.meanings) came H.may_follow state.old.state
        state.new.state
        bytes.now (drop n bytes.now) hearer.old hearer.new) }
    ensures heard_wrong { IfNone result
        (HearsWrong method_objects (after_event T.meanings) came H.may_follow state.old.state
        state.new.state
        bytes.now hearer.old hearer.new) }
{
    let mut at = 0;
    'events: loop {
        let (_, rest) = bytes.split_at(at);
        match front_of(rest) {
            Front::Part => return Some(at),
            Front::BadSize => return None,
            Front::Whole(raw, size) => {
                if !take_message(state, &raw, hearer) {
                    return None;
                }
                at += size;
            }
        }
    }
}

// Makes room for all that so many received bytes make the client send.
fn reserve_for<T: Typist>(state: &mut MethodState<T>, received: usize) -> Result<(), NoMemory>
    ensures ok { OnOk result (1029 * received ≤ state.new.room) }
    ensures state { state.new.state ≡ state.old.state }
{
    let Some(room) = received.checked_mul(SENT_A_BYTE) else {
        return Err(NoMemory);
    };
    state.reserve(room)
}

// Holds the piece behind what is held, with room for all that it makes the client send.
pub(crate) fn hold<T: Typist>(
    state: &mut MethodState<T>,
    held: &mut Vec<u8>,
    piece: &[u8],
) -> Result<(), NoMemory>
    ensures held { OnOk result (held.new.items ≡ held.old.items ++ piece.now) }
    ensures room { OnOk result (1029 * vec_len held.new ≤ state.new.room) }
    ensures state { state.new.state ≡ state.old.state }
    ensures err { OnErr result (held.new.items ≡ held.old.items) }
{
    let before = held.len();
    held.extend_from_slice(piece)?;
    let room = reserve_for(state, held.len());
    if room.is_err() {
        held.truncate(before);
    }
    room
}

// Takes the events that are held whole, and keeps what is left; false where the bytes go wrong.
pub(crate) fn take_held<T: Typist, H: MethodHearer>(
    state: &mut MethodState<T>,
    held: &mut Vec<u8>,
    hearer: &mut H,
) -> bool
    requires { 1029 * vec_len held.old ≤ state.old.room }
    ensures taken { OnTrue result
        (Takes method_objects (after_event T.meanings) state.old.state state.new.state
        held.old.items
        held.new.items) }
    ensures part { OnTrue result (IsPartial held.new.items) }
    ensures kept { OnFalse result (held.new.items ≡ held.old.items) }
    ensures fits { OnFalse result (IsBytes held.new.items) }
    ensures wrong { OnFalse result
        (GoesWrong method_objects (after_event T.meanings) state.old.state state.new.state
        held.old.items) }
    ensures heard { (rest : List ℕ) × Hears method_objects
        (after_event T.meanings) came H.may_follow
        state.old.state state.new.state held.old.items rest hearer.old hearer.new }
    ensures heard_all { OnTrue result
        (Hears method_objects (after_event T.meanings) came H.may_follow state.old.state
        state.new.state
        held.old.items held.new.items hearer.old hearer.new) }
    ensures heard_wrong { OnFalse result
        (HearsWrong method_objects (after_event T.meanings) came H.may_follow state.old.state
        state.new.state
        held.old.items hearer.old hearer.new) }
{
    let Some(taken) = take_events(state, held, hearer) else {
        return false;
    };
    cut_front(held, taken);
    true
}

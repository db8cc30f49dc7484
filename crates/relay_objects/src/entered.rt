//! Whose fields may be entered, and the focus that comes to them and goes.
ghost use Rattle.std.specs.Prelude.{◌≡◌, map};
ghost use Rattle.relay_objects.specs.declared.object.Object.{Object};
ghost use Rattle.relay_objects.specs.Listed.{PeersRise, IsCalm, widened, entered_by, left_for};
ghost use Rattle.relay_objects.specs.Listed.{visited, refocused_in};

use crate::change::Change;
use crate::listed::{LiveField, of_peer};
use crate::object::{Object, is_number};
use crate::shelf::Shelf;
use relay_model::Label;

/// The peers whose fields may be entered. Every other field is as its last leave left it.
#[derive(Clone, Copy, Drop)]
pub enum Entered {
    /// No field is entered.
    Nobody,
    /// Only fields of this peer.
    One(Label),
    /// Fields of any peer.
    Anyone,
}

/// Fields of this peer may be entered too.
fn widened(entered: Entered, peer: Label) -> Entered
    ensures { result ≡ widened entered peer }
{
    match entered {
        Entered::Nobody => Entered::One(peer),
        Entered::One(other) => {
            if other == peer {
                Entered::One(peer)
            } else {
                Entered::Anyone
            }
        }
        Entered::Anyone => Entered::Anyone,
    }
}

/// The peers whose fields may be entered, where the object is one of the fields.
pub fn entered_with(entered: Entered, object: &Object) -> Entered
    ensures keeps { (o : Object) → IsCalm entered o → IsCalm result o }
    ensures calm { IsCalm result object.now }
{
    if object.is_entered() {
        widened(entered, object.peer)
    } else {
        entered
    }
}

/// Only fields of this peer may be entered.
pub fn entered_by(peer: Option<Label>) -> Entered
    ensures { result ≡ entered_by peer }
{
    match peer {
        Some(peer) => Entered::One(peer),
        None => Entered::Nobody,
    }
}

/// Whose fields are left where the focus comes to the peer. Its own are visited anyhow.
pub fn left_for(entered: Entered, peer: Option<Label>) -> Entered
    ensures { result ≡ left_for entered peer }
{
    match entered {
        Entered::One(left) if is_number(peer, left) => Entered::Nobody,
        Entered::Nobody | Entered::One(_) | Entered::Anyone => entered,
    }
}

// The focus is the peer's now, for each of these.
fn refocus_each(shelf: &mut Shelf, fields: &[LiveField], peer: Option<Label>)
    ensures items { shelf.new.items ≡ map (refocused_in fields.now peer) shelf.old.items }
    ensures room { shelf.new.room ≡ shelf.old.room }
{
    for field in fields {
        shelf.change(field.label, Change::Focus(peer), &mut None);
    }
}

/// The focus is the peer's now, for the fields that may be entered.
pub fn refocus_entered(
    shelf: &mut Shelf,
    fields: &[LiveField],
    entered: Entered,
    peer: Option<Label>,
)
    requires { PeersRise fields.now }
    ensures items { shelf.new.items ≡ map (refocused_in (visited entered fields.now) peer)
        shelf.old.items }
    ensures room { shelf.new.room ≡ shelf.old.room }
{
    match entered {
        Entered::Nobody => {}
        Entered::One(left) => refocus_each(shelf, of_peer(fields, left), peer),
        Entered::Anyone => refocus_each(shelf, fields, peer),
    }
}

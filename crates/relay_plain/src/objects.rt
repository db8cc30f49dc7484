//! The objects of a history, the newest act first: which are alive, of which kind, and whose.
ghost use Rattle.std.specs.Prelude.{◌≡◌, ◌==◌, ◌<◌, ◌^◌, length, filter, IfOk};
ghost use Rattle.relay_model.specs.Objects.{next, is_at, is_same, owner, method_in, surface_in};
ghost use Rattle.relay_model.specs.Objects.{made, maker, remains, object, alive, peer_of, is_field};
ghost use Rattle.relay_model.specs.Objects.{is_surface, is_method, is_peer, is_popup, is_board};
ghost use Rattle.relay_model.specs.Objects.{method_of, surface_of, labels, fields, popups};
ghost use Rattle.relay_model.specs.Objects.{has_popup};
ghost use Rattle.relay_plain.specs.Objects.{option_of};

use relay_model::{Act, Label};
use std::alloc::Global;
use wio_core::NoMemory;

// What an object is.
#[derive(Clone, Copy)]
enum Kind {
    Peer,
    Surface,
    Field,
    Method,
    Thing,
    Board,
    Popup { method: Label, surface: Label },
    Grab { method: Label },
}

// A live object: its kind, and the peer that it belongs to.
#[derive(Clone, Copy)]
struct LiveObject {
    kind: Kind,
    peer: Label,
}

/// The option is this number.
pub fn is_at(slot: Option<Label>, label: Label) -> bool
    ensures { result ≡ is_at slot label }
{
    match slot {
        Some(there) => there == label,
        None => false,
    }
}

/// Both are there, and the same.
pub fn is_same(one: Option<Label>, other: Option<Label>) -> bool
    ensures { result ≡ is_same one other }
{
    match one {
        Some(label) => is_at(other, label),
        None => false,
    }
}

/// The number of the act that comes next.
pub fn next(older: &[Act]) -> usize
    ensures { result ≡ next older.now }
{
    older.len() + 1
}

// The peer of an object that is there.
fn owner(object: Option<LiveObject>) -> Option<Label>
    ensures { result ≡ owner (option_of object) }
{
    match object {
        Some(object) => Some(object.peer),
        None => None,
    }
}

// What the act makes, where it has this number, and its maker this peer.
fn made(act: &Act, label: Label, whose: Option<Label>) -> Option<LiveObject>
    ensures { option_of result ≡ made act.now label whose }
{
    let (kind, peer) = match act {
        Act::Peer => (Kind::Peer, label),
        Act::Surface { peer } => (Kind::Surface, *peer),
        Act::Field { peer } => (Kind::Field, *peer),
        Act::Method { peer } => (Kind::Method, *peer),
        Act::Registry { peer, .. } | Act::Seat { peer } | Act::Thing { peer } => {
            (Kind::Thing, *peer)
        }
        Act::VBoard { peer } => (Kind::Board, *peer),
        Act::Popup { method, surface } => {
            let kind = Kind::Popup {
                method: *method,
                surface: *surface,
            };
            (kind, whose?)
        }
        Act::Grab { method } => (Kind::Grab { method: *method }, whose?),
        _ => return None,
    };
    Some(LiveObject { kind, peer })
}

// The method that makes the act's object.
fn maker(act: &Act) -> Label
    ensures { result ≡ maker act.now }
{
    match act {
        Act::Popup { method, .. } | Act::Grab { method } => *method,
        _ => 0,
    }
}

// What the act leaves of an object that was made before it.
fn remains(act: &Act, label: Label, object: Option<LiveObject>) -> Option<LiveObject>
    ensures { option_of result ≡ remains act.now label (option_of object) }
{
    match act {
        Act::Drop { label: dropped } if *dropped == label => None,
        Act::Gone { peer, .. } if is_at(owner(object), *peer) => None,
        _ => object,
    }
}

// The live object with the label.
fn object(log: &[Act], label: Label) -> Option<LiveObject>
    ensures { option_of result ≡ object log.now label }
{
    match log {
        [] => None,
        [act, older @ ..] => {
            if label as usize == next(older) {
                made(act, label, owner(object(older, maker(act))))
            } else {
                remains(act, label, object(older, label))
            }
        }
    }
}

/// The object is alive.
pub fn alive(log: &[Act], label: Label) -> bool
    ensures { result ≡ alive log.now label }
{
    object(log, label).is_some()
}

/// The peer of the live object.
pub fn peer_of(log: &[Act], label: Label) -> Option<Label>
    ensures { result ≡ peer_of log.now label }
{
    owner(object(log, label))
}

/// The label is that of a live field.
pub fn is_field(log: &[Act], label: Label) -> bool
    ensures { result ≡ is_field log.now label }
{
    match object(log, label) {
        Some(object) => matches!(object.kind, Kind::Field),
        None => false,
    }
}

/// The label is that of a live surface.
pub fn is_surface(log: &[Act], label: Label) -> bool
    ensures { result ≡ is_surface log.now label }
{
    match object(log, label) {
        Some(object) => matches!(object.kind, Kind::Surface),
        None => false,
    }
}

/// The label is that of a live method.
pub fn is_method(log: &[Act], label: Label) -> bool
    ensures { result ≡ is_method log.now label }
{
    match object(log, label) {
        Some(object) => matches!(object.kind, Kind::Method),
        None => false,
    }
}

/// The label is that of a peer that hasn't ended.
pub fn is_peer(log: &[Act], label: Label) -> bool
    ensures { result ≡ is_peer log.now label }
{
    match object(log, label) {
        Some(object) => matches!(object.kind, Kind::Peer),
        None => false,
    }
}

/// The label is that of a live board.
pub fn is_board(log: &[Act], label: Label) -> bool
    ensures { result ≡ is_board log.now label }
{
    match object(log, label) {
        Some(object) => matches!(object.kind, Kind::Board),
        None => false,
    }
}

fn is_popup(log: &[Act], label: Label) -> bool
    ensures { result ≡ is_popup log.now label }
{
    match object(log, label) {
        Some(object) => matches!(object.kind, Kind::Popup { .. }),
        None => false,
    }
}

/// The method of the live popup or grab.
pub fn method_of(log: &[Act], label: Label) -> Option<Label>
    ensures { result ≡ method_of log.now label }
{
    match object(log, label)?.kind {
        Kind::Popup { method, .. } | Kind::Grab { method } => Some(method),
        _ => None,
    }
}

/// The surface of the live popup.
pub fn surface_of(log: &[Act], label: Label) -> Option<Label>
    ensures { result ≡ surface_of log.now label }
{
    match object(log, label)?.kind {
        Kind::Popup { surface, .. } => Some(surface),
        _ => None,
    }
}

// The labels of a history, rising.
fn labels(alloc: Global, log: &[Act]) -> Result<Vec<Label>, NoMemory>
    requires { length log.now < 2 ^ 32 }
    ensures { IfOk result (λ all. all.items ≡ labels log.now) }
{
    match log {
        [] => Ok(Vec::new(alloc)),
        [_, older @ ..] => {
            let mut labels = labels(alloc, older)?;
            labels.push(next(older) as u32)?;
            Ok(labels)
        }
    }
}

fn keep_fields(log: &[Act], labels: &mut Vec<Label>)
    ensures { labels.new.items ≡ filter (is_field log.now) labels.old.items }
{
    labels.retain(|label| is_field(log, *label));
}

fn keep_popups(log: &[Act], labels: &mut Vec<Label>)
    ensures { labels.new.items ≡ filter (is_popup log.now) labels.old.items }
{
    labels.retain(|label| is_popup(log, *label));
}

/// The live fields, by rising label.
pub fn fields(alloc: Global, log: &[Act]) -> Result<Vec<Label>, NoMemory>
    requires { length log.now < 2 ^ 32 }
    ensures { IfOk result (λ found. found.items ≡ fields log.now) }
{
    let mut fields = labels(alloc, log)?;
    keep_fields(log, &mut fields);
    Ok(fields)
}

/// The live popups, by rising label.
pub fn popups(alloc: Global, log: &[Act]) -> Result<Vec<Label>, NoMemory>
    requires { length log.now < 2 ^ 32 }
    ensures { IfOk result (λ found. found.items ≡ popups log.now) }
{
    let mut popups = labels(alloc, log)?;
    keep_popups(log, &mut popups);
    Ok(popups)
}

/// A live popup has the surface.
pub fn has_popup(alloc: Global, log: &[Act], surface: Label) -> Result<bool, NoMemory>
    requires { length log.now < 2 ^ 32 }
    ensures { IfOk result (λ has. has ≡ has_popup log.now surface) }
{
    let labels = labels(alloc, log)?;
    Ok(
        labels
            .iter()
            .any(|label| is_at(surface_of(log, *label), surface)),
    )
}

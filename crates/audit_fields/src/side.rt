//! One peer that joined, and the streams of an application.
ghost use Rattle.std.specs.Prelude.{◌≡◌, ◌<◌, ◌++◌, ◌∷◌, [], length, IfOk, IfErr, OnOk, OnErr};
ghost use Rattle.std.specs.List.{slice_get};
ghost use Rattle.audit_fields.specs.Gathering.{fresh_side, is_app, is_app_in, told_at};
ghost use Rattle.audit_fields.specs.Hearing.{IsHeardAt, IsUnheardAt};

use crate::{Comparison, HearEnd};
use relay_model::Role;
use std::alloc::Global;
use wio_core::NoMemory;

/// A peer that joined, with the streams of an application.
#[derive(Drop)]
pub(crate) struct Side {
    pub is_app: bool,
    pub streams: Comparison,
}

// Whether a peer of the role has text fields.
fn is_app(role: Role) -> bool
    ensures { result ≡ is_app role }
{
    match role {
        Role::App => true,
        Role::Method | Role::Keyed => false,
    }
}

/// Whether an application is at the place.
pub(crate) fn is_app_at(sides: &[Side], place: usize) -> bool
    ensures { result ≡ is_app_in (slice_get sides.now place) }
{
    match sides.get(place) {
        Some(side) => side.is_app,
        None => false,
    }
}

/// One more peer, which was told nothing.
pub(crate) fn join_side(alloc: Global, role: Role, sides: &mut Vec<Side>) -> Result<(), NoMemory>
    ensures { OnOk result (sides.new.items ≡ sides.old.items ++ fresh_side role ∷ []) }
{
    sides.push(Side {
        is_app: is_app(role),
        streams: Comparison::new(alloc),
    })?;
    Ok(())
}

/// The peer at a place is told more, if it is there and an application.
pub(crate) fn tell_side(sides: &mut [Side], place: usize, bytes: &[u8]) -> Result<(), NoMemory>
    ensures { OnOk result (sides.new ≡ told_at place bytes.now sides.old) }
{
    if is_app_at(sides, place) {
        sides[place].streams.tell(bytes)?;
    }
    Ok(())
}

/// Hears more of what was sent to the peer at a place.
pub(crate) fn hear_side(sides: &mut [Side], place: usize, bytes: &[u8]) -> Result<u64, HearEnd>
    requires { place < length sides.old }
    ensures heard { IfOk result (λ n. IsHeardAt place bytes.now n sides.old sides.new) }
    ensures unheard { IfErr result (IsUnheardAt place bytes.now sides.old) }
    ensures same { OnErr result (sides.new ≡ sides.old) }
{
    sides[place].streams.hear(bytes)
}

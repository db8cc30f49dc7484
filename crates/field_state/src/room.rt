//! Memory for a field's texts, made ahead of the field's first one.
ghost use Rattle.std.specs.Prelude.{◌≡◌, Some, None, if◌then◌else◌};

use crate::slots::SURROUNDING_LIMIT;
use std::alloc::Global;
use std::marker::Model;
use wl_wire::NoMemory;

/// Memory for the texts of one field, pending and current: twice `SURROUNDING_LIMIT` bytes. A field takes it at its
/// first text, and keeps it. In contracts it is nothing but there.
#[derive(Drop)]
pub struct Room {
    pub(crate) pending: String,
    pub(crate) current: String,
}

impl Model for Room {
    ghost use Rattle.std.specs.Prelude.{◌≤◌};
    ghost use Rattle.std.specs.String.{string_capacity};
    ghost use Rattle.field_state.specs.declared.slots.TheConstants.{SURROUNDING_LIMIT};

    ghost Value = { Unit {0} };

    ghost view = { λ r. tt };

    ghost invariant = { λ r. (SURROUNDING_LIMIT ≤ string_capacity r.pending)
        × (SURROUNDING_LIMIT ≤ string_capacity r.current) };
}

impl Room {
    /// Memory for the texts of one field. `NoMemory` is its one error.
    pub fn new(alloc: Global) -> Result<Room, NoMemory> {
        let pending = String::with_capacity(alloc, SURROUNDING_LIMIT)?;
        let current = String::with_capacity(alloc, SURROUNDING_LIMIT)?;
        Ok(Room { pending, current })
    }
}

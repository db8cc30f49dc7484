//! What the relay keeps.
ghost use Rattle.std.specs.Prelude.{◌+◌, ◌≤◌};

use edit_batch::Pending;
use kbd_grab::Grab;
use relay_model::{Label, Size};
use relay_objects::{Objects, Spare};
use serial_count::{Count32, Since};
use std::alloc::Global;

#[derive(Drop)]
pub struct Machine {
    pub alloc: Global,
    pub acts: u32,
    pub objects: Objects,
    pub focus: Option<Label>,
    pub holder: Option<Label>,
    pub serving: Option<Label>,
    /// The pending edits of the serving method, while an activation is present.
    pub pending: Pending,
    /// An activation is present.
    pub active: bool,
    /// How many dones the serving method was told, modulo 2^32.
    pub dones: Count32,
    /// How many of them in the present activation, up to 2^32.
    pub since: Since,
    /// The size of the screen, in pixels.
    pub screen: Size,
    pub keys: Grab,
    pub spare: Spare,
    // A label is the number of an act.
    ghost below: { objects.bound ≤ acts + 1 },
}

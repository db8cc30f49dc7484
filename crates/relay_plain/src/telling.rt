//! One event that is told.
ghost use Rattle.std.specs.Prelude.{◌≡◌, [], ◌∷◌};
ghost use Rattle.relay_model.specs.Told.{to};
ghost use Rattle.relay_plain.specs.Telling.{Tells};

use relay_model::{Label, Said, Told};
use wio_core::NoMemory;

// The label of the shell.
pub const SHELL: Label = 0;

pub fn tell(label: Label, event: Said, told: &mut Vec<Told>) -> Result<(), NoMemory>
    ensures { Tells result told.old told.new (to label event ∷ []) }
{
    told.push(Told { to: label, event })?;
    Ok(())
}

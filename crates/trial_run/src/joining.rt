//! How a trial begins: its peers join, and their clients send their set-up.
ghost use Rattle.std.specs.Prelude.{◌≡◌, ◌<◌, ◌+◌, ◌≤◌, length, OnOk};
ghost use Rattle.trial_run.specs.Trial.{method_joined, field_joined, fields_joined};
ghost use Rattle.trial_run.specs.Working.{IsRun};

use crate::steps::join;
use crate::stop::Stop;
use crate::trial::{FieldSeat, Trial};
use crate::whose::Whose;
use relay_model::Role;

impl Trial {
    /// The method joins, and its client sends its set-up.
    pub(crate) fn join_method(&mut self) -> Result<(), Stop>
        ensures run { IsRun (method_joined self.old) result self.new }
        ensures fields { length self.new.fields ≡ length self.old.fields }
    {
        join(&mut self.shared, Role::Method)?;
        self.sends(Whose::Method)
    }

    // So does one more field.
    fn join_field(&mut self) -> Result<(), Stop>
        requires few { length self.old.fields < 16 }
        ensures run { IsRun (field_joined self.old) result self.new }
        ensures fields { OnOk result (length self.new.fields ≡ length self.old.fields + 1) }
    {
        let field = FieldSeat::new(self.alloc)?;
        let index = self.fields.len();
        join(&mut self.shared, Role::App)?;
        self.fields.push(field)?;
        self.sends(Whose::Field(index))
    }

    /// So many fields do.
    pub(crate) fn join_fields(&mut self, count: u32) -> Result<(), Stop>
        requires few { length self.old.fields + count ≤ 16 }
        ensures run { IsRun (fields_joined count self.old) result self.new }
        ensures fields { OnOk result (length self.new.fields ≡ length self.old.fields + count) }
    {
        for joined in 0..count {
            self.join_field()?;
        }
        Ok(())
    }
}

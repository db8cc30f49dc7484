//! What jobs are to do, in order.
ghost use Rattle.std.specs.Prelude.{◌≡◌, ◌++◌, ◌∷◌, [], All, OnOk, OnErr};
ghost use Rattle.broker_steps.specs.Ranges.{IsShellStep};
ghost use Rattle.trial_script.specs.Grammar.{IsFieldEdit};

use broker_steps::ShellStep;
use std::alloc::Global;
use std::marker::Model;
use trial_script::FieldEdit;
use wl_wire::NoMemory;

/// The edits that a field's own user makes, each as a line of a script can give it. Contracts see a
/// list of them.
#[derive(Debug, Drop)]
pub struct EditList {
    items: Vec<FieldEdit>,
}

impl Model for EditList {
    ghost use Rattle.std.specs.Prelude.{List, All};
    ghost use Rattle.trial_script.specs.declared.action.FieldEdit.{FieldEdit};
    ghost use Rattle.trial_script.specs.Grammar.{IsFieldEdit};

    ghost Value = { List FieldEdit };

    ghost view = { λ l. l.items.items };

    ghost invariant = { λ l. All IsFieldEdit l.items.items };
}

impl EditList {
    /// No edits. (no memory)
    pub fn new(alloc: Global) -> EditList
        ensures { result ≡ [] }
    {
        EditList {
            items: Vec::new(alloc),
        }
    }

    /// One edit more.
    pub fn push(&mut self, edit: FieldEdit) -> Result<(), NoMemory>
        requires { IsFieldEdit edit }
        ensures ok { OnOk result (self.new ≡ self.old ++ edit ∷ []) }
        ensures err { OnErr result (self.new ≡ self.old) }
    {
        self.items.push(edit)?;
        Ok(())
    }

    /// The edits.
    pub fn as_slice(&self) -> &[FieldEdit]
        ensures same { result.now ≡ self.now }
        ensures each { All IsFieldEdit self.now }
    {
        &self.items
    }
}

/// The orders of the shell. Contracts see a list of them.
#[derive(Debug, Drop)]
pub struct ShellSteps {
    items: Vec<ShellStep>,
}

impl Model for ShellSteps {
    ghost use Rattle.std.specs.Prelude.{List, All};
    ghost use Rattle.broker_steps.specs.declared.step.ShellStep.{ShellStep};
    ghost use Rattle.broker_steps.specs.Ranges.{IsShellStep};

    ghost Value = { List ShellStep };

    ghost view = { λ l. l.items.items };

    ghost invariant = { λ l. All IsShellStep l.items.items };
}

impl ShellSteps {
    /// No orders. (no memory)
    pub fn new(alloc: Global) -> ShellSteps
        ensures { result ≡ [] }
    {
        ShellSteps {
            items: Vec::new(alloc),
        }
    }

    /// One order more.
    pub fn push(&mut self, step: ShellStep) -> Result<(), NoMemory>
        requires { IsShellStep step }
        ensures ok { OnOk result (self.new ≡ self.old ++ step ∷ []) }
        ensures err { OnErr result (self.new ≡ self.old) }
    {
        self.items.push(step)?;
        Ok(())
    }

    /// The orders.
    pub fn as_slice(&self) -> &[ShellStep]
        ensures same { result.now ≡ self.now }
        ensures each { All IsShellStep self.now }
    {
        &self.items
    }
}

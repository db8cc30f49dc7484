//! The field that a log makes of an empty one.
ghost use Rattle.std.specs.Prelude.{◌≡◌, [], IfOk};
ghost use Rattle.client_side.specs.FieldLog.{text_after, text_of};
ghost use Rattle.trial_client_logs.specs.Logs.{IsEntry, happening_of, field_log};

use crate::entry::FieldEntry;
use crate::field_log::FieldLog;
use crate::views::{batch_view, edit_view};
use std::alloc::Global;
use trial_field::{BatchView, TrialField};
use wio_core::NoMemory;

// A batch without edits: the preedit is dropped.
fn drop_preedit(field: &mut TrialField)
    ensures { field.new ≡ record field.old { preedit = [] } }
{
    field.done(&BatchView {
        before: 0,
        after: 0,
        string: "",
        preedit: "",
        begin: 0,
        end: 0,
    });
}

// One thing more happens to a field.
fn follow(field: &mut TrialField, entry: &FieldEntry)
    requires { IsEntry entry.now }
    ensures { field.new ≡ text_after (happening_of entry.now) field.old }
{
    match entry {
        FieldEntry::Own(edit) => {
            let _ = field.edit(&edit_view(edit));
        }
        FieldEntry::Batch(edits, _) => field.done(&batch_view(edits)),
        FieldEntry::Enter => {}
        FieldEntry::Leave => drop_preedit(field),
    }
}

/// The field that the log makes of an empty one.
pub fn field_of(alloc: Global, log: &FieldLog) -> Result<TrialField, NoMemory>
    ensures { IfOk result (λ field. field ≡ text_of (field_log log.now)) }
{
    let mut field = TrialField::new(alloc)?;
    for entry in log.as_slice() {
        follow(&mut field, entry);
    }
    Ok(field)
}

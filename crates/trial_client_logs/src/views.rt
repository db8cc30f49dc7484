//! Edits of a script as fields and the method take them, and copies of them.
ghost use Rattle.std.specs.Prelude.{◌≡◌, IfOk};
ghost use Rattle.trial_field.specs.Log as logs;
ghost use Rattle.trial_client_logs.specs.Logs.{edit_of, batch_of, FitsMessages};

use std::alloc::Global;
use trial_field::{BatchView, Edit};
use trial_script::{Edits, FieldEdit};
use wio_core::NoMemory;
use wl_proto::Text;

/// The edit as the field takes it.
pub fn edit_view(edit: &FieldEdit) -> Edit<'_>
    ensures value { logs.entry_of result ≡ edit_of edit.now }
    ensures valid { logs.IsEdit result }
{
    match edit {
        FieldEdit::Insert(text) => Edit::Insert(text.as_str()),
        FieldEdit::Left => Edit::Left,
        FieldEdit::Right => Edit::Right,
        FieldEdit::Rub => Edit::Rub,
    }
}

/// The edit in memory of its own.
pub fn edit_copy(alloc: Global, edit: &FieldEdit) -> Result<FieldEdit, NoMemory>
    ensures { IfOk result (λ copy. copy ≡ edit.now) }
{
    Ok(match edit {
        FieldEdit::Insert(text) => FieldEdit::Insert(text.copy(alloc)?),
        FieldEdit::Left => FieldEdit::Left,
        FieldEdit::Right => FieldEdit::Right,
        FieldEdit::Rub => FieldEdit::Rub,
    })
}

/// The edits as a field and the method take them, where their texts fit messages.
pub fn batch_view(edits: &Edits) -> BatchView<'_>
    requires { FitsMessages edits.now }
    ensures value { logs.batch_of result ≡ batch_of edits.now }
    ensures valid { logs.IsBatch result }
{
    BatchView {
        before: edits.before,
        after: edits.after,
        string: edits.string.as_str(),
        preedit: edits.preedit.as_str(),
        begin: edits.begin,
        end: edits.end,
    }
}

/// The edits in memory of their own.
pub fn batch_copy(alloc: Global, edits: &Edits) -> Result<Edits, NoMemory>
    ensures { IfOk result (λ copy. copy ≡ edits.now) }
{
    let string = edits.string.copy(alloc)?;
    let preedit = edits.preedit.copy(alloc)?;
    Ok(Edits {
        before: edits.before,
        after: edits.after,
        string,
        preedit,
        begin: edits.begin,
        end: edits.end,
    })
}

/// Edits that are lent, in memory of their own.
pub(crate) fn edits_of(alloc: Global, batch: &BatchView<'_>) -> Result<Edits, NoMemory>
    requires { logs.IsBatch batch.now }
    ensures value { IfOk result (λ edits. batch_of edits ≡ logs.batch_of batch.now) }
    ensures fits { IfOk result FitsMessages }
{
    let string = Text::of(alloc, batch.string)?;
    let preedit = Text::of(alloc, batch.preedit)?;
    Ok(Edits {
        before: batch.before,
        after: batch.after,
        string,
        preedit,
        begin: batch.begin,
        end: batch.end,
    })
}

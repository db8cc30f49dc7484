//! What of a script is whose.
ghost use Rattle.std.specs.Prelude.{◌≡◌, ◌++◌, ◌<◌, ◌^◌, All, IfOk, OnOk};
ghost use Rattle.trial_script.specs.declared.action.Action.TheVariants as actions;
ghost use Rattle.trial_script.specs.Grammar.{IsAction};
ghost use Rattle.trial_threads.specs.Users.{is_foreign, bad_line_from, batches_for, batches_in};
ghost use Rattle.trial_threads.specs.Users.{edits_for, edits_in, ordered_for, orders_in};

use broker_steps::ShellStep;
use std::alloc::Global;
use trial_client_logs::{batch_copy, edit_copy};
use trial_jobs::BatchList;
use trial_script::{Action, Ending};
use trial_typing::{EditList, ShellSteps};
use wio_core::NoMemory;

/// The id under which each field's client has its surface.
const SURFACE: u32 = 6;

// Whether no trial in threads has the action: a field stops or goes on reading, or is shown.
fn is_foreign(action: &Action) -> bool
    ensures { result ≡ is_foreign action.now }
{
    match action {
        Action::Pause(_) | Action::Resume(_) | Action::Show(_) => true,
        Action::Use(_) | Action::Leave | Action::Press(_) | Action::Batch(_) | Action::Edit(_, _) =>
            false,
    }
}

/// The number of the line at which no trial in threads goes on, if there is one: the line of the
/// first action has that number. `NoMemory` comes where numbers of 64 bits don't reach.
pub(crate) fn bad_line(
    first: u64,
    actions: &[Action],
    ending: Ending,
) -> Result<Option<u64>, NoMemory>
    ensures { IfOk result (λ found. found ≡ bad_line_from first actions.now ending) }
{
    let mut number = first;
    for action in actions {
        if is_foreign(action) {
            return Ok(Some(number));
        }
        let Some(next) = number.checked_add(1) else {
            return Err(NoMemory);
        };
        number = next;
    }
    match ending {
        Ending::End => Ok(None),
        Ending::BadLine(bad) | Ending::Unended(bad) => Ok(Some(bad)),
    }
}

// The batch of an action.
fn put_batch(alloc: Global, batches: &mut BatchList, action: &Action) -> Result<(), NoMemory>
    requires { IsAction action.now }
    ensures { OnOk result (batches.new ≡ batches.old ++ batches_for action.now) }
{
    if let Action::Batch(edits) = action {
        batches.push(batch_copy(alloc, edits)?)?;
    }
    Ok(())
}

/// The batches of the method's user.
pub(crate) fn batches_in(alloc: Global, actions: &[Action]) -> Result<BatchList, NoMemory>
    requires { All IsAction actions.now }
    ensures { IfOk result (λ batches. batches ≡ batches_in actions.now) }
{
    let mut batches = BatchList::new(alloc);
    for action in actions {
        put_batch(alloc, &mut batches, action)?;
    }
    Ok(batches)
}

// The edit of an action, where it is of the field with this number.
fn put_edit(
    alloc: Global,
    number: u32,
    edits: &mut EditList,
    action: &Action,
) -> Result<(), NoMemory>
    requires { IsAction action.now }
    ensures { OnOk result (edits.new ≡ edits.old ++ edits_for number action.now) }
{
    if let Action::Edit(field, edit) = action {
        if *field == number {
            edits.push(edit_copy(alloc, edit)?)?;
        }
    }
    Ok(())
}

/// The edits of the user of the field with this number.
pub(crate) fn edits_in(alloc: Global, number: u32, actions: &[Action]) -> Result<EditList, NoMemory>
    requires { All IsAction actions.now }
    ensures { IfOk result (λ edits. edits ≡ edits_in number actions.now) }
{
    let mut edits = EditList::new(alloc);
    for action in actions {
        put_edit(alloc, number, &mut edits, action)?;
    }
    Ok(edits)
}

// The shell presses a key and releases it.
fn press(steps: &mut ShellSteps, time: u32, key: u32) -> Result<(), NoMemory>
    requires { key < 2 ^ 32 }
    ensures { OnOk result (steps.new ≡ steps.old ++ ordered_for time (actions.Press key)) }
{
    steps.push(ShellStep::Key {
        time,
        key,
        state: 1,
    })?;
    steps.push(ShellStep::Key {
        time,
        key,
        state: 0,
    })
}

// What the shell orders for an action.
fn order(steps: &mut ShellSteps, time: u32, action: &Action) -> Result<(), NoMemory>
    requires { IsAction action.now }
    ensures { OnOk result (steps.new ≡ steps.old ++ ordered_for time action.now) }
{
    match action {
        Action::Use(field) => steps.push(ShellStep::Focus {
            peer: *field + 1,
            id: SURFACE,
        }),
        Action::Leave => steps.push(ShellStep::Unfocus),
        Action::Press(key) => press(steps, time, *key),
        Action::Batch(_)
        | Action::Edit(_, _)
        | Action::Pause(_)
        | Action::Resume(_)
        | Action::Show(_) => Ok(()),
    }
}

/// The orders of the shell. The time of the first action is the number of its line, modulo 2^32.
pub(crate) fn orders_in(
    alloc: Global,
    first: u32,
    actions: &[Action],
) -> Result<ShellSteps, NoMemory>
    requires { All IsAction actions.now }
    ensures { IfOk result (λ steps. steps ≡ orders_in first actions.now) }
{
    let mut steps = ShellSteps::new(alloc);
    let mut time = first;
    for action in actions {
        order(&mut steps, time, action)?;
        time = time.wrapping_add(1);
    }
    Ok(steps)
}

//! What an act tells of focus, hold and batches, and all that it tells.
ghost use Rattle.std.specs.Prelude.{◌≡◌, ◌<◌, ◌^◌, [], length, map, filter, option_map, IfOk};
ghost use Rattle.relay_model.specs.Objects.{fields};
ghost use Rattle.relay_model.specs.Focus.{focus, entered};
ghost use Rattle.relay_model.specs.Hold.{holder};
ghost use Rattle.relay_model.specs.Activation.{serving};
ghost use Rattle.relay_model.specs.Told.{to, each_entered, around_said, state_said, holders_state};
ghost use Rattle.relay_model.specs.Told.{notice_said, to_method, leaves, enters, enters_new};
ghost use Rattle.relay_model.specs.Told.{told_by};
ghost use Rattle.relay_plain.specs.Newest.{at_newest};
ghost use Rattle.relay_plain.specs.Current.{around_of, state_of};
ghost use Rattle.relay_plain.specs.Activation.{notice_of};
ghost use Rattle.relay_plain.specs.Told.{crossed, crossing};
ghost use Rattle.relay_plain.specs.Telling.{Tells};

use crate::activation::{HoldNotice, notice};
use crate::current::{Around, State, current};
use crate::focus::{entered, focus};
use crate::hold::holder;
use crate::objects::{fields, next};
use crate::own::tell_own;
use crate::seat::{seat_after, seat_at};
use crate::telling::tell;
use relay_model::{Act, Label, Said, Told};
use std::alloc::Global;
use wio_core::NoMemory;

fn crossing(entering: bool, surface: Label) -> Said
    ensures { result ≡ crossing entering surface }
{
    if entering {
        Said::Enter { surface }
    } else {
        Said::Leave { surface }
    }
}

fn tell_crossed(
    entering: bool,
    surface: Label,
    fields: &[Label],
    told: &mut Vec<Told>,
) -> Result<(), NoMemory>
    ensures { Tells result told.old told.new (map (crossed entering surface) fields.now) }
{
    match fields {
        [] => Ok(()),
        [field, rest @ ..] => {
            tell(*field, crossing(entering, surface), told)?;
            tell_crossed(entering, surface, rest, told)
        }
    }
}

fn keep_entered(log: &[Act], fields: &mut Vec<Label>)
    ensures { fields.new.items ≡ filter (entered log.now) fields.old.items }
{
    fields.retain(|field| entered(log, *field));
}

// The entered fields, by rising label.
fn entered_fields(alloc: Global, log: &[Act]) -> Result<Vec<Label>, NoMemory>
    requires { length log.now < 2 ^ 32 }
    ensures { IfOk result (λ found. found.items ≡ filter (entered log.now) (fields log.now)) }
{
    let mut found = fields(alloc, log)?;
    keep_entered(log, &mut found);
    Ok(found)
}

// Tells each entered field, by rising label, that the focus comes or goes, where a surface has it.
fn tell_each_entered(
    alloc: Global,
    entering: bool,
    log: &[Act],
    told: &mut Vec<Told>,
) -> Result<(), NoMemory>
    requires { length log.now < 2 ^ 32 }
    ensures { Tells result told.old told.new
        (each_entered (crossed entering) log.now (focus log.now)) }
{
    match focus(log) {
        Some(surface) => {
            let found = entered_fields(alloc, log)?;
            tell_crossed(entering, surface, &found, told)
        }
        None => Ok(()),
    }
}

// Tells the fields that the focus leaves: it moves away from a surface that is alive.
fn tell_leaves(
    alloc: Global,
    act: &Act,
    older: &[Act],
    told: &mut Vec<Told>,
) -> Result<(), NoMemory>
    requires { length older.now < 2 ^ 32 }
    ensures { Tells result told.old told.new (leaves act.now older.now) }
{
    match act {
        Act::Focus { .. } | Act::Unfocus => tell_each_entered(alloc, false, older, told),
        _ => Ok(()),
    }
}

// Tells the surrounding text and its cause, where one is set.
fn tell_around(
    alloc: Global,
    method: Label,
    surrounding: Option<Around>,
    cause: u32,
    told: &mut Vec<Told>,
) -> Result<(), NoMemory>
    ensures { Tells result told.old told.new
        (map (to method) (around_said (option_map around_of surrounding.entry) cause)) }
{
    match surrounding {
        Some(around) => {
            let event = Said::Surrounding {
                text: around.text.copy(alloc)?,
                cursor: around.cursor.unsigned_abs(),
                anchor: around.anchor.unsigned_abs(),
            };
            tell(method, event, told)?;
            tell(method, Said::ChangeCause { cause }, told)
        }
        None => Ok(()),
    }
}

// Tells the state of the holder, and the done that ends it.
fn tell_state(
    alloc: Global,
    method: Label,
    state: State,
    told: &mut Vec<Told>,
) -> Result<(), NoMemory>
    ensures { Tells result told.old told.new (map (to method) (state_said (state_of state.entry))) }
{
    tell_around(alloc, method, state.surrounding, state.cause, told)?;
    let event = Said::ContentType {
        hint: state.content.hint,
        purpose: state.content.purpose,
    };
    tell(method, event, told)?;
    tell(method, Said::MethodDone, told)
}

fn tell_holders_state(
    alloc: Global,
    method: Label,
    log: &[Act],
    told: &mut Vec<Told>,
) -> Result<(), NoMemory>
    ensures { Tells result told.old told.new
        (map (to method) (holders_state log.now (holder log.now))) }
{
    match holder(log) {
        Some(field) => tell_state(alloc, method, current(log, field), told),
        None => Ok(()),
    }
}

// Tells what is said of the hold after the newest act.
fn tell_notice(
    alloc: Global,
    method: Label,
    log: &[Act],
    notice: Option<HoldNotice>,
    told: &mut Vec<Told>,
) -> Result<(), NoMemory>
    ensures { Tells result told.old told.new
        (map (to method) (notice_said log.now (option_map notice_of notice))) }
{
    match notice {
        Some(HoldNotice::Activates) => {
            tell(method, Said::Activate, told)?;
            tell_holders_state(alloc, method, log, told)
        }
        Some(HoldNotice::Updates) => tell_holders_state(alloc, method, log, told),
        Some(HoldNotice::Deactivates) => {
            tell(method, Said::Deactivate, told)?;
            tell(method, Said::MethodDone, told)
        }
        None => Ok(()),
    }
}

// Tells the method that serves what the newest act says of the hold.
fn tell_method(alloc: Global, log: &[Act], told: &mut Vec<Told>) -> Result<(), NoMemory>
    requires { length log.now < 2 ^ 32 }
    ensures { Tells result told.old told.new (at_newest
        (λ act older. to_method act older (serving log.now)) [] log.now) }
{
    match log {
        [] => Ok(()),
        [_, older @ ..] => {
            let before = seat_at(older);
            let after = seat_after(log, before);
            match after.serving {
                Some(method) => {
                    tell_notice(alloc, method, log, notice(log, before, after), told)
                }
                None => Ok(()),
            }
        }
    }
}

// Tells the new field, where its peer has the focus.
fn tell_new_field(log: &[Act], field: Label, told: &mut Vec<Told>) -> Result<(), NoMemory>
    ensures { Tells result told.old told.new (enters_new log.now field (focus log.now)) }
{
    match focus(log) {
        Some(surface) if entered(log, field) => tell(field, Said::Enter { surface }, told),
        _ => Ok(()),
    }
}

// Tells the fields that the newest act enters.
fn tell_enters(alloc: Global, log: &[Act], told: &mut Vec<Told>) -> Result<(), NoMemory>
    requires { length log.now < 2 ^ 32 }
    ensures { Tells result told.old told.new (at_newest enters [] log.now) }
{
    match log {
        [] => Ok(()),
        [act, older @ ..] => match act {
            Act::Focus { .. } => tell_each_entered(alloc, true, log, told),
            Act::Field { .. } => tell_new_field(log, next(older) as u32, told),
            _ => Ok(()),
        },
    }
}

// Tells all that the newest act of a history tells, in order.
pub fn tell_newest(alloc: Global, log: &[Act], told: &mut Vec<Told>) -> Result<(), NoMemory>
    requires { length log.now < 2 ^ 32 }
    ensures { Tells result told.old told.new (at_newest told_by [] log.now) }
{
    match log {
        [] => Ok(()),
        [act, older @ ..] => {
            tell_leaves(alloc, act, older, told)?;
            tell_method(alloc, log, told)?;
            tell_enters(alloc, log, told)?;
            tell_own(alloc, log, told)
        }
    }
}

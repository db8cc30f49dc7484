//! What a whole list of acts tells.
ghost use Rattle.std.specs.Prelude.{◌≡◌, ◌+◌, ◌<◌, ◌^◌, ◌∷◌, length, OnOk, IfOk};
ghost use Rattle.relay_model.specs.Idle.{cleaned};
ghost use Rattle.relay_model.specs.Told.{told_by};
ghost use Rattle.relay_plain.specs.Plain.{all_told, told_after};
ghost use Rattle.relay_plain.specs.Telling.{Tells};

use crate::idle::cleaned;
use crate::told::tell_newest;
use relay_model::{Act, Told};
use std::alloc::Global;
use wio_core::NoMemory;

// One act after a history, the newest act first.
fn take(
    alloc: Global,
    act: &Act,
    history: &mut Vec<Act>,
    told: &mut Vec<Told>,
) -> Result<(), NoMemory>
    requires { length history.old.items + 1 < 2 ^ 32 }
    ensures history { OnOk result (history.new.items ≡ cleaned act.now history.old.items ∷
        history.old.items) }
    ensures told { Tells result told.old told.new
        (told_by (cleaned act.now history.old.items) history.old.items) }
{
    let act = cleaned(alloc, act, history)?;
    history.insert(0, act)?;
    tell_newest(alloc, history, told)
}

// The acts of a list after a history.
fn tell_rest(
    alloc: Global,
    acts: &[Act],
    history: &mut Vec<Act>,
    told: &mut Vec<Told>,
) -> Result<(), NoMemory>
    requires { length history.old.items + length acts.now < 2 ^ 32 }
    ensures { Tells result told.old told.new (told_after history.old.items acts.now) }
{
    match acts {
        [] => Ok(()),
        [act, rest @ ..] => {
            take(alloc, act, history, told)?;
            tell_rest(alloc, rest, history, told)
        }
    }
}

/// What the acts of a list tell, one after the other, by looking back over all acts before each:
/// what the rules say, computed as they stand. The acts are numbered from 1, and fewer than 2^32
/// are taken. `NoMemory` is its one error. The time grows with about the third power of the number
/// of acts, the fourth where methods commit or there are many popups; each act before is a frame of
/// the stack.
#[tactic(auto, using(crate::proofs::GrownHistory::told_after_history))]
pub fn plain_told(alloc: Global, acts: &[Act]) -> Result<Vec<Told>, NoMemory>
    requires { length acts.now < 2 ^ 32 }
    ensures { IfOk result (λ told. told.items ≡ all_told acts.now) }
{
    let mut history = Vec::new(alloc);
    let mut told = Vec::new(alloc);
    tell_rest(alloc, acts, &mut history, &mut told)?;
    Ok(told)
}

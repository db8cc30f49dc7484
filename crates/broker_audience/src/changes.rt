//! What a message makes of its sender's objects.
ghost use Rattle.std.specs.Prelude.{◌≡◌, [], ◌++◌, List, None, option_map, IfSome, OnOk, OnErr};
ghost use Rattle.std.specs.FinMap as map;
ghost use Rattle.im_objects.specs.Calls.{Call};
ghost use Rattle.im_objects.specs.Objects.{Stands, refusal_of};
ghost use Rattle.broker_wire.specs.Asked.{asked};
ghost use Rattle.broker_audience.specs.Changes.{make_calls, own_calls};

use broker_wire::{Argument, Meaning};
use im_objects::{MakeRefusal, Table};
use relay_model::{Act, Label};
use wio_core::NoMemory;

// Makes what is asked for, if anything is: its id was tested. `NoMemory` is its one error.
fn make(table: &mut Table, label: Label, new: Option<Argument>) -> Result<(), NoMemory>
    requires unused { map.get table.old.ids label ≡ None }
    requires accepted { IfSome new (λ a. refusal_of table.old a.id ≡ None) }
    ensures ok { (calls : List Call) → Stands calls table.old →
        OnOk result (Stands (make_calls label (option_map asked new) ++ calls) table.new) }
    ensures err { OnErr result (table.new ≡ table.old) }
{
    let Some(new) = new else {
        return Ok(());
    };
    match table.make(new.id, new.interface, label) {
        Ok(()) => Ok(()),
        Err(MakeRefusal::NoMemory) => Err(NoMemory),
        Err(MakeRefusal::IdRange | MakeRefusal::IdTaken | MakeRefusal::TooMany) => unreachable!(),
    }
}

/// What a message to the object with the id makes of its sender's objects. `label` is the message's
/// number. `NoMemory` is its one error, after which all is as before.
pub(crate) fn change(
    table: &mut Table,
    id: u32,
    label: Label,
    meaning: &Meaning,
) -> Result<(), NoMemory>
    requires unused { map.get table.old.ids label ≡ None }
    requires accepted { IfSome meaning.now.made (λ a. refusal_of table.old a.id ≡ None) }
    ensures ok { (calls : List Call) → Stands calls table.old →
        OnOk result (Stands (own_calls id label meaning.now.act
        (option_map asked meaning.now.made) ++ calls) table.new) }
    ensures err { OnErr result (table.new ≡ table.old) }
{
    match &meaning.act {
        Act::Sync { .. } => Ok(()),
        Act::Drop { .. } => {
            table.drop_id(id);
            Ok(())
        }
        _ => make(table, label, meaning.made),
    }
}

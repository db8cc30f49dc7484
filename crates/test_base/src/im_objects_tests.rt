//! What no clause tells: that memory is found, and that a table is used as its callers use it.
use crate::equal::{equal, equal_at};
use im_objects::{Label, MakeRefusal, Table};
use std::alloc::Global;
use std::process::Abort;
use std::test::Fail;
use wl_proto::Interface;

// A call with what it has to answer.
#[derive(Clone, Copy)]
enum Step {
    // Makes an object under the id, where no live object has the label.
    Make(Interface, u32, Label, Result<(), MakeRefusal>),
    // Makes callbacks under the ids 2 to 257.
    Fill,
    Drop(u32, bool),
    Find(u32, Option<(Interface, Label)>),
    FindLabel(Label, Option<u32>),
    Length(usize),
}

fn make(
    rt: &impl Abort,
    table: &mut Table,
    interface: Interface,
    id: u32,
    label: Label,
    want: Result<(), MakeRefusal>,
) {
    assert!(rt; matches!(&table.find_label(label), None));
    equal_at(rt, &id, table.make(id, interface, label), want);
}

fn take(rt: &impl Abort, table: &mut Table, step: Step) {
    match step {
        Step::Make(interface, id, label, want) => make(rt, table, interface, id, label, want),
        Step::Fill => {
            for id in 2..258 {
                make(rt, table, Interface::Callback, id, id, Ok(()));
            }
        }
        Step::Drop(id, want) => equal_at(rt, &id, table.drop_id(id), want),
        Step::Find(id, want) => equal_at(rt, &id, table.find(id), want),
        Step::FindLabel(label, want) => equal(rt, table.find_label(label), want),
        Step::Length(want) => equal(rt, table.len(), want),
    }
}

const CALLBACK: Interface = Interface::Callback;

const REFUSES_THE_257TH_OBJECT: [Step; 13] = [
    Step::Fill,
    Step::Make(CALLBACK, 258, 258, Err(MakeRefusal::TooMany)),
    Step::Length(257),
    Step::Find(258, None),
    Step::FindLabel(258, None),
    Step::Drop(100, true),
    Step::Make(CALLBACK, 258, 258, Ok(())),
    Step::FindLabel(1000, Some(1)),
    Step::FindLabel(2, Some(2)),
    Step::FindLabel(99, Some(99)),
    Step::FindLabel(101, Some(101)),
    Step::FindLabel(257, Some(257)),
    Step::FindLabel(258, Some(258)),
];

const AN_ID_USED_ANEW_NAMES_THE_NEW_OBJECT: [Step; 11] = [
    Step::Make(Interface::TextInput, 3, 8, Ok(())),
    Step::Find(3, Some((Interface::TextInput, 8))),
    Step::FindLabel(8, Some(3)),
    Step::Drop(3, true),
    Step::Drop(3, false),
    Step::Find(3, None),
    Step::FindLabel(8, None),
    Step::Make(CALLBACK, 3, 9, Ok(())),
    Step::Find(3, Some((CALLBACK, 9))),
    Step::FindLabel(8, None),
    Step::FindLabel(9, Some(3)),
];

const THE_DISPLAY_STAYS: [Step; 3] = [
    Step::Drop(1, false),
    Step::Find(1, Some((Interface::Display, 1000))),
    Step::FindLabel(1000, Some(1)),
];

// The table is full; the ids are out of range, taken, or free.
const THE_FIRST_REFUSAL_THAT_APPLIES_IS_TOLD: [Step; 14] = [
    Step::Fill,
    Step::Make(CALLBACK, 0, 2000, Err(MakeRefusal::IdRange)),
    Step::Make(CALLBACK, 0xFF00_0000, 2000, Err(MakeRefusal::IdRange)),
    Step::Make(CALLBACK, 0xFFFF_FFFF, 2000, Err(MakeRefusal::IdRange)),
    Step::Make(CALLBACK, 1, 2000, Err(MakeRefusal::IdTaken)),
    Step::Make(CALLBACK, 257, 2000, Err(MakeRefusal::IdTaken)),
    Step::Make(CALLBACK, 258, 2000, Err(MakeRefusal::TooMany)),
    Step::Make(CALLBACK, 0xFEFF_FFFF, 2000, Err(MakeRefusal::TooMany)),
    Step::FindLabel(2000, None),
    Step::Drop(2, true),
    Step::Make(CALLBACK, 1, 2000, Err(MakeRefusal::IdTaken)),
    Step::Make(CALLBACK, 0xFF00_0000, 2000, Err(MakeRefusal::IdRange)),
    Step::Make(CALLBACK, 0xFEFF_FFFF, 2000, Ok(())),
    Step::Find(0xFEFF_FFFF, Some((CALLBACK, 2000))),
];

const LISTS: [&[Step]; 4] = [
    &REFUSES_THE_257TH_OBJECT,
    &AN_ID_USED_ANEW_NAMES_THE_NEW_OBJECT,
    &THE_DISPLAY_STAYS,
    &THE_FIRST_REFUSAL_THAT_APPLIES_IS_TOLD,
];

// Each list is played over a table of its own, whose display has the label 1000.
#[test]
fn each_list_of_steps_is_answered(rt: HostRuntime) -> Result<(), Fail> {
    for steps in &LISTS {
        let mut table = Table::new(rt.alloc(), 1000)?;
        for step in *steps {
            take(&rt, &mut table, *step);
        }
    }
    Ok(())
}

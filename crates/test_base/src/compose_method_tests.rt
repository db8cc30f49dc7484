//! The worked rows, and each public call once.
use crate::equal::equal_at;
use compose_method::{ComposeTable, MAX_ENTRIES, MAX_SINGLES, Method, TableRefusal};
use std::alloc::Global;
use std::process::Abort;
use std::test::Fail;
use wl_proto::Event;

// A press with the string and the preedit of its batch, a press that goes on, or an event.
#[derive(Clone, Copy)]
enum Step {
    Types(u32, &'static str, &'static str),
    GoesOn(u32),
    Activate,
    Deactivate,
    Done,
}

// A quote and an e with texts of their own, and an e that the two make.
fn accents(rt: &impl Abort, alloc: Global) -> Result<ComposeTable, Fail> {
    let mut table = ComposeTable::new(alloc)?;
    assert!(rt; table.single(40, "'").is_ok());
    assert!(rt; table.single(18, "e").is_ok());
    assert!(rt; table.entry("é", &[40, 18]).is_ok());
    Ok(table)
}

fn take(rt: &impl Abort, method: &mut Method, step: Step) {
    match step {
        Step::Types(key, string, preedit) => {
            equal_at(rt, &key, method.press(key), Some((string, preedit)));
        }
        Step::GoesOn(key) => equal_at(rt, &key, method.press(key), None),
        Step::Activate => method.event(&Event::Activate),
        Step::Deactivate => method.event(&Event::Deactivate),
        Step::Done => method.event(&Event::InputMethodDone),
    }
}

const PRESSES_TYPE_ENTRIES_FIRST: [Step; 9] = [
    Step::Activate,
    Step::Types(40, "", "'"),
    Step::Types(18, "é", ""),
    Step::Types(18, "e", ""),
    Step::Types(40, "", "'"),
    Step::Types(40, "'", "'"),
    Step::Types(18, "é", ""),
    Step::Types(40, "", "'"),
    Step::Types(99, "'", ""),
];

const ONLY_ACTIVATION_AND_DEACTIVATION_EMPTY_WHAT_WAITS: [Step; 13] = [
    Step::GoesOn(40),
    Step::Activate,
    Step::Types(40, "", "'"),
    Step::Done,
    Step::Types(18, "é", ""),
    Step::Types(40, "", "'"),
    Step::Activate,
    Step::Types(18, "e", ""),
    Step::Types(40, "", "'"),
    Step::Deactivate,
    Step::GoesOn(18),
    Step::Activate,
    Step::Types(18, "e", ""),
];

const LISTS: [&[Step]; 2] = [
    &PRESSES_TYPE_ENTRIES_FIRST,
    &ONLY_ACTIVATION_AND_DEACTIVATION_EMPTY_WHAT_WAITS,
];

// Each list is played over a method of its own.
#[test]
fn each_list_of_presses_is_typed(rt: HostRuntime) -> Result<(), Fail> {
    for steps in &LISTS {
        let mut method = Method::new(rt.alloc(), accents(&rt, rt.alloc())?)?;
        for step in *steps {
            take(&rt, &mut method, *step);
        }
    }
    Ok(())
}

// Entries that clash, and the table filled up.
#[test]
fn a_clash_comes_before_a_full_table(rt: HostRuntime) -> Result<(), Fail> {
    let clash = Err(TableRefusal::Clash);
    let mut table = accents(&rt, rt.alloc())?;
    equal_at(&rt, &1, table.entry("x", &[40, 18]), clash);
    equal_at(&rt, &2, table.entry("x", &[40, 18, 1]), clash);
    equal_at(&rt, &3, table.entry("x", &[1, 2, 3]), Ok(()));
    equal_at(&rt, &4, table.entry("x", &[1, 2]), clash);
    for key in 2..MAX_SINGLES as u32 {
        equal_at(&rt, &key, table.single(1_000 + key, "x"), Ok(()));
    }
    equal_at(&rt, &5, table.single(1, "x"), Err(TableRefusal::TooMany));
    equal_at(&rt, &6, table.single(18, "x"), clash);
    for key in 2..MAX_ENTRIES as u32 {
        equal_at(&rt, &key, table.entry("x", &[9_000 - key, 7]), Ok(()));
    }
    equal_at(
        &rt,
        &7,
        table.entry("x", &[1, 1]),
        Err(TableRefusal::TooMany),
    );
    equal_at(&rt, &8, table.entry("x", &[40, 18]), clash);
    Ok(())
}

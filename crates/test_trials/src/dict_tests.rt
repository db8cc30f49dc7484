//! The worked rows of a dictionary, and each public call once.
ghost use Rattle.compose_method.specs.Table.{IsKeyText};
ghost use Rattle.dict_method.specs.Dictionary.{AreWordKeys};

use crate::equal::equal_at;
use compose_method::{ComposeTable, Event, TableRefusal};
use dict_method::{Control, Dict, DictMethod, MAX_WORDS};
use std::alloc::Global;
use std::process::Abort;
use std::test::Fail;

/// A press with the string and the preedit of its batch, presses that each give some batch, one that gives none, an event, or
/// what the candidates are then: how many, and the one with the number.
#[derive(Clone, Copy, Debug)]
enum Step {
    Types(u32, &'static str, &'static str),
    Something(u32, u32),
    Nothing(u32),
    Activate,
    Deactivate,
    Done,
    Candidates(usize),
    Candidate(usize, &'static str),
    NoCandidate(usize),
}

static KEYS_NARROW_THE_CANDIDATES: [Step; 15] = [
    Step::Nothing(18),
    Step::Activate,
    Step::Candidates(4),
    Step::Types(18, "", "e"),
    Step::Candidates(4),
    Step::Candidate(2, "z"),
    Step::Types(19, "", "ef"),
    Step::Candidates(3),
    Step::Candidate(1, "é"),
    Step::Candidate(2, "longer"),
    Step::Candidate(3, "é"),
    Step::NoCandidate(4),
    Step::NoCandidate(0),
    // A candidate whose keys go on is chosen, and the code is empty.
    Step::Types(3, "longer", ""),
    Step::Candidates(4),
];

static ERASING_TAKES_THE_LAST_KEY: [Step; 12] = [
    Step::Activate,
    // Control keys without a code give nothing, also one that has a text of its own.
    Step::Nothing(14),
    Step::Nothing(2),
    Step::Types(18, "", "e"),
    Step::Types(18, "", "ee"),
    // There is one candidate, and no longer code has any.
    Step::Nothing(3),
    Step::Nothing(19),
    Step::Types(14, "", "e"),
    Step::Types(19, "", "ef"),
    Step::Types(15, "", "e"),
    Step::Types(15, "", ""),
    Step::Types(19, "f", ""),
];

static ACTIVATIONS_EMPTY_THE_CODE: [Step; 10] = [
    Step::Activate,
    Step::Types(18, "", "e"),
    Step::Done,
    Step::Types(19, "", "ef"),
    Step::Activate,
    Step::Types(19, "f", ""),
    Step::Types(18, "", "e"),
    Step::Deactivate,
    Step::Nothing(19),
    // A key without a text of its own types nothing, and gives an empty batch.
    Step::Candidates(4),
];

/// A key of 16 presses, of which each shows one letter more.
static A_CODE_HAS_UP_TO_SIXTEEN_KEYS: [Step; 7] = [
    Step::Activate,
    Step::Something(18, 16),
    Step::Nothing(18),
    Step::Types(14, "", "eeeeeeeeeeeeeee"),
    Step::Types(18, "", "eeeeeeeeeeeeeeee"),
    Step::Types(2, "sixteen", ""),
    Step::Types(99, "", ""),
];

// Takes the step, and says whether it gives what it should.
fn gives(method: &mut DictMethod, step: Step) -> bool {
    match step {
        Step::Types(key, string, preedit) => match method.press(key) {
            Some((typed, shown)) => typed == string && shown == preedit,
            None => false,
        },
        Step::Something(key, times) => {
            let mut all = true;
            for _ in 0..times {
                all = method.press(key).is_some() && all;
            }
            all
        }
        Step::Nothing(key) => method.press(key).is_none(),
        Step::Activate => {
            method.event(&Event::Activate);
            true
        }
        Step::Deactivate => {
            method.event(&Event::Deactivate);
            true
        }
        Step::Done => {
            method.event(&Event::InputMethodDone);
            true
        }
        Step::Candidates(count) => method.candidates() == count,
        Step::Candidate(number, text) => match method.candidate(number) {
            Some(found) => found == text,
            None => false,
        },
        Step::NoCandidate(number) => method.candidate(number).is_none(),
    }
}

// Keys 18 and 19 with the texts "e" and "f", and key 14 with one that it never types.
fn texts(rt: &impl Abort, alloc: Global) -> Result<ComposeTable, Fail> {
    let mut table = ComposeTable::new(alloc)?;
    equal_at(rt, &0, table.has_entries(), false);
    equal_at(rt, &18, table.single(18, "e"), Ok(()));
    equal_at(rt, &19, table.single(19, "f"), Ok(()));
    equal_at(rt, &14, table.single(14, "x"), Ok(()));
    Ok(table)
}

fn put(rt: &impl Abort, dict: &mut Dict, text: &str, keys: &[u32])
    requires text { IsKeyText text.now }
    requires keys { AreWordKeys keys.now }
{
    equal_at(rt, &keys, dict.word(text, keys), Ok(()));
}

/// Keys 2, 3 and 4 choose, and keys 14 and 15 erase.
const CONTROLS: [(u32, Control); 5] = [
    (2, Control::Choose(1)),
    (3, Control::Choose(2)),
    (4, Control::Choose(3)),
    (14, Control::Erase),
    (15, Control::Erase),
];

fn put_controls(rt: &impl Abort, dict: &mut Dict) {
    for &(key, what) in &CONTROLS {
        equal_at(rt, &key, dict.control(key, what), Ok(()));
    }
}

fn words(rt: &impl Abort, alloc: Global) -> Result<Dict, Fail> {
    let mut dict = Dict::new(alloc)?;
    equal_at(rt, &0, dict.has_words(), false);
    put(rt, &mut dict, "é", &[18, 19]);
    put(rt, &mut dict, "z", &[18, 18]);
    put(rt, &mut dict, "longer", &[18, 19, 18]);
    put(rt, &mut dict, "é", &[18, 19]);
    equal_at(rt, &4, dict.has_words(), true);
    put_controls(rt, &mut dict);
    Ok(dict)
}

// Each list is played over a method of its own.
fn play(rt: &impl Abort, alloc: Global, dict: Dict, steps: &[Step]) -> Result<(), Fail> {
    let mut method = DictMethod::new(alloc, texts(rt, alloc)?, dict)?;
    for step in steps {
        equal_at(rt, step, gives(&mut method, *step), true);
    }
    Ok(())
}

#[test]
fn each_press_is_decided_by_the_first_row(rt: HostRuntime) -> Result<(), Fail> {
    let alloc = rt.alloc();
    play(&rt, alloc, words(&rt, alloc)?, &KEYS_NARROW_THE_CANDIDATES)?;
    play(&rt, alloc, words(&rt, alloc)?, &ERASING_TAKES_THE_LAST_KEY)?;
    play(&rt, alloc, words(&rt, alloc)?, &ACTIVATIONS_EMPTY_THE_CODE)?;
    let mut dict = Dict::new(alloc)?;
    put(&rt, &mut dict, "sixteen", &[18; 16]);
    put_controls(&rt, &mut dict);
    play(&rt, alloc, dict, &A_CODE_HAS_UP_TO_SIXTEEN_KEYS)
}

// Each refusal, and the dictionary filled up.
fn clash_and_fill(rt: &impl Abort, dict: &mut Dict) {
    let clash = Err(TableRefusal::Clash);
    equal_at(rt, &2, dict.word("x", &[18, 2]), clash);
    equal_at(rt, &2, dict.control(2, Control::Erase), clash);
    equal_at(rt, &18, dict.control(18, Control::Erase), clash);
    equal_at(rt, &5, dict.control(5, Control::Choose(1)), clash);
    for key in 4..MAX_WORDS as u32 {
        put(rt, dict, "x", &[1_000 + key]);
    }
    let full = Err(TableRefusal::TooMany);
    equal_at(rt, &18, dict.word("x", &[18]), full);
    equal_at(rt, &2, dict.word("x", &[2]), clash);
    equal_at(rt, &5, dict.control(5, Control::Choose(9)), Ok(()));
}

#[test]
fn a_clash_comes_before_a_full_dictionary(rt: HostRuntime) -> Result<(), Fail> {
    let mut dict = words(&rt, rt.alloc())?;
    clash_and_fill(&rt, &mut dict);
    Ok(())
}

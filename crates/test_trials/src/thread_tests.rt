//! Trials in threads: two fields wait for one another before their first edits; lines of other trials; a field whose peer
//! ends in the middle; and drawn trials, in each of which every field was told what a replay of the trial's session tells
//! it, and no other thing. And scripts that are too long for a file of cases, in one thread.
use crate::equal::{equal, equal_at};
use crate::gate::Meets;
use crate::plain::{acts_in, field_of_peer, told_to};
use crate::scripts::{lines, script_of};
use crate::told::{heard_in, replayed, told_in};
use relay_plain::plain_told;
use std::alloc::Global;
use std::process::Abort;
use std::sync::Wait;
use std::test::Fail;
use std::thread::Threads;
use trial_client_logs::field_of;
use trial_threads::{ThreadTrial, ThreadTrialEnd, run_trial, run_trial_threads};

// The trial is played to its end.
fn play<R: Threads + Wait + Sync>(
    rt: &R,
    alloc: Global,
    script: &str,
    gate: &Meets,
) -> Result<ThreadTrial, Fail> {
    match run_trial_threads(rt, alloc, script.as_bytes(), gate) {
        Ok(trial) => Ok(trial),
        Err(_) => Err(Fail::new("the trial wasn't played to its end")),
    }
}

#[test]
fn two_fields_wait_for_each_other(rt: HostRuntime) -> Result<(), Fail> {
    let alloc = rt.alloc();
    let script = "trial 1;fields 2;use 1;insert 1 61;insert 2 62;insert 1 63;end;";
    let gate = Meets::new(true);
    let trial = play(&rt, alloc, lines(alloc, &[(script, 1)])?.as_str(), &gate)?;
    equal(&rt, gate.counts(), (2, 0));
    let logs = trial.logs.as_slice();
    equal(&rt, logs.len(), 2);
    for (log, wanted) in logs.iter().zip(["ac", "b"].iter()) {
        equal(&rt, field_of(alloc, log)?.text() == *wanted, true);
    }
    Ok(())
}

/// Scripts, and the line of each that is outside the grammar, or missing.
const BAD: [(&str, u64); 6] = [
    ("trial 1;fields 1;use 1;pause 1;end;", 4),
    ("trial 1;fields 1;resume 1;end;", 3),
    ("trial 1;fields 1;insert 1 61;show 1;what;end;", 4),
    ("trial 1;fields 1;what;show 1;end;", 3),
    ("trial 1;fields 1;use 2;end;", 3),
    ("trial 1;fields 1;use 1;", 4),
];

#[test]
fn lines_of_other_trials_are_outside_the_grammar(rt: HostRuntime) -> Result<(), Fail> {
    let alloc = rt.alloc();
    for &(script, number) in &BAD {
        let text = lines(alloc, &[(script, 1)])?;
        let found = match run_trial_threads(&rt, alloc, text.as_bytes(), &Meets::new(false)) {
            Err(ThreadTrialEnd::BadLine(found)) => found,
            _ => 0,
        };
        equal_at(&rt, &script, found, number);
    }
    Ok(())
}

/// The shell says so often what changes nothing that the field's user is done before a key is pressed, unless its thread
/// comes late. It takes nothing while 1,000 texts of 64 bytes are stored for it, which no store has room for.
const FULL: [(&str, usize); 7] = [
    ("trial 1;single 1 ", 1),
    ("61", 64),
    (";fields 1;", 1),
    ("use 1;", 30_000),
    ("insert 1 62;", 100),
    ("press 1;", 1_000),
    ("end;", 1),
];

// Whether the field's peer ended by its full store. What the field was told then is a front of what a replay tells it.
fn is_ended<R: Abort>(rt: &R, alloc: Global, trial: &ThreadTrial) -> Result<bool, Fail> {
    let transcript = replayed(alloc, &trial.session)?;
    let text = std::str::from_utf8(transcript.held())
        .ok()
        .expect(rt, "text");
    if !text.contains(" ended 2 full\n") {
        return Ok(false);
    }
    let (wanted, _) = told_in(alloc, &heard_in(alloc, text, 2)?)?;
    for log in trial.logs.as_slice() {
        let (told, _) = told_in(alloc, log)?;
        equal(rt, wanted.as_str().starts_with(told.as_str()), true);
    }
    Ok(true)
}

// On a busy machine a thread may come late, so it is played again.
#[test]
fn a_field_ends_by_its_full_store(rt: HostRuntime) -> Result<(), Fail> {
    let alloc = rt.alloc();
    let script = lines(alloc, &FULL)?;
    for _ in 0..20 {
        let trial = play(&rt, alloc, script.as_str(), &Meets::new(false))?;
        if is_ended(&rt, alloc, &trial)? {
            return Ok(());
        }
    }
    Err(Fail::new("the field never ended"))
}

// In the trial of the number each field was told by its log what a replay tells it. Answers how many things that were.
fn agree<R: Abort + Threads + Wait + Sync>(
    rt: &R,
    alloc: Global,
    number: u64,
    fields: u32,
    actions: u32,
) -> Result<u64, Fail> {
    let script = script_of(alloc, number, fields, actions)?;
    let trial = play(rt, alloc, script.as_str(), &Meets::new(false))?;
    equal(rt, trial.logs.as_slice().len(), fields as usize);
    let transcript = replayed(alloc, &trial.session)?;
    let text = std::str::from_utf8(transcript.held())
        .ok()
        .expect(rt, "text");
    let mut things = 0u64;
    let mut peer = 2u32;
    for log in trial.logs.as_slice() {
        let (told, count) = told_in(alloc, log)?;
        let (wanted, _) = told_in(alloc, &heard_in(alloc, text, peer)?)?;
        equal_at(rt, &(number, peer), told.as_str(), wanted.as_str());
        things = things.saturating_add(count);
        peer = peer.saturating_add(1);
    }
    Ok(things)
}

// The trials of ten numbers, from the one on: some of their fields were told something.
fn play_ten<R: Abort + Threads + Wait + Sync>(
    rt: &R,
    alloc: Global,
    from: u64,
) -> Result<(), Fail> {
    let mut things = 0u64;
    for more in 0u64..10 {
        let count = agree(rt, alloc, from.wrapping_add(more), 4, 400)?;
        things = things.saturating_add(count);
    }
    equal(rt, things > 0, true);
    Ok(())
}

// In the trial of the number each field's log has what the slow evaluator tells the field of the session's acts. Answers how
// many things that were.
fn agree_by_the_rules<R: Abort + Threads + Wait + Sync>(
    rt: &R,
    alloc: Global,
    number: u64,
) -> Result<u64, Fail> {
    let script = script_of(alloc, number, 2, 40)?;
    let trial = play(rt, alloc, script.as_str(), &Meets::new(false))?;
    let acts = acts_in(alloc, &trial.session)?;
    assert!(rt; acts.len() < 4294967296);
    let told = plain_told(alloc, &acts)?;
    let mut things = 0u64;
    let mut peer = 2u32;
    for log in trial.logs.as_slice() {
        let (text, count) = told_in(alloc, log)?;
        let wanted = told_to(alloc, &told, field_of_peer(&acts, peer))?;
        equal_at(rt, &(number, peer), text.as_str(), wanted.as_str());
        things = things.saturating_add(count);
        peer = peer.saturating_add(1);
    }
    Ok(things)
}

#[test]
fn fields_are_told_what_the_rules_say(rt: HostRuntime) -> Result<(), Fail> {
    let mut things = 0u64;
    for number in 0u64..8 {
        things = things.saturating_add(agree_by_the_rules(&rt, rt.alloc(), number)?);
    }
    equal(&rt, things > 20, true);
    Ok(())
}

#[test]
fn ten_trials_are_told_what_a_replay_tells(rt: HostRuntime) -> Result<(), Fail> {
    play_ten(&rt, rt.alloc(), 0)
}

#[test]
fn those_from_10_are(rt: HostRuntime) -> Result<(), Fail> {
    play_ten(&rt, rt.alloc(), 10)
}

#[test]
fn those_from_20_are(rt: HostRuntime) -> Result<(), Fail> {
    play_ten(&rt, rt.alloc(), 20)
}

#[test]
fn those_from_30_are(rt: HostRuntime) -> Result<(), Fail> {
    play_ten(&rt, rt.alloc(), 30)
}

#[test]
fn those_from_40_are(rt: HostRuntime) -> Result<(), Fail> {
    play_ten(&rt, rt.alloc(), 40)
}

#[test]
fn those_from_50_are(rt: HostRuntime) -> Result<(), Fail> {
    play_ten(&rt, rt.alloc(), 50)
}

#[test]
fn those_from_60_are(rt: HostRuntime) -> Result<(), Fail> {
    play_ten(&rt, rt.alloc(), 60)
}

#[test]
fn those_from_70_are(rt: HostRuntime) -> Result<(), Fail> {
    play_ten(&rt, rt.alloc(), 70)
}

#[test]
fn those_from_80_are(rt: HostRuntime) -> Result<(), Fail> {
    play_ten(&rt, rt.alloc(), 80)
}

#[test]
fn those_from_90_are(rt: HostRuntime) -> Result<(), Fail> {
    play_ten(&rt, rt.alloc(), 90)
}

#[test]
fn sixteen_fields_are_told_what_a_replay_tells(rt: HostRuntime) -> Result<(), Fail> {
    let _things = agree(&rt, rt.alloc(), 7, 16, 1600)?;
    Ok(())
}

// The script ends after its last line, and shows this.
fn shows(
    rt: &impl Abort,
    alloc: Global,
    script: &str,
    parts: &[(&str, usize)],
) -> Result<(), Fail> {
    let wanted = lines(alloc, parts)?;
    let shown = match run_trial(alloc, script.as_bytes()) {
        Ok(text) => text.as_str() == wanted.as_str(),
        Err(_) => false,
    };
    equal(rt, shown, true);
    Ok(())
}

// A field doesn't read, and each batch is relayed to it with 4,028 bytes: its store has 65,536, so the last doesn't fit. What
// was stored before the end is still read, and the field goes on by itself.
#[test]
fn a_field_whose_peer_ended_goes_on_by_itself(rt: HostRuntime) -> Result<(), Fail> {
    let alloc = rt.alloc();
    let batch = lines(alloc, &[("batch 0 0 ", 1), ("61", 4000), (" - 0 0;", 1)])?;
    let script = lines(
        alloc,
        &[
            ("trial 1;fields 2;use 1;insert 1 62;pause 1;", 1),
            (batch.as_str(), 17),
            ("insert 1 63;show 1;use 2;batch 0 0 64 - 0 0;show 2;", 1),
            ("resume 1;left 1;rub 1;show 1;end;", 1),
        ],
    )?;
    let wanted = [
        ("show 1 6263 2 -;show 2 64 1 -;show 1 6263", 1),
        ("61", 63_999),
        (" 64000 -;", 1),
    ];
    shows(&rt, alloc, script.as_str(), &wanted)
}

// Once it reads, the field tells its state for each enter before the method takes anything. Each time the method is told
// 2,068 bytes, and its store has 65,536: it types nothing more.
#[test]
fn a_method_whose_peer_ended_types_nothing_more(rt: HostRuntime) -> Result<(), Fail> {
    let alloc = rt.alloc();
    let script = lines(
        alloc,
        &[
            ("trial 1;fields 1;use 1;batch 0 0 62 - 0 0;insert 1 ", 1),
            ("61", 2000),
            (";pause 1;", 1),
            ("leave;use 1;", 40),
            ("resume 1;batch 0 0 63 - 0 0;insert 1 64;show 1;end;", 1),
        ],
    )?;
    let wanted = [("show 1 62", 1), ("61", 2000), ("64 2002 -;", 1)];
    shows(&rt, alloc, script.as_str(), &wanted)
}

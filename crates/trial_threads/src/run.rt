//! A whole trial in threads.
ghost use Rattle.std.specs.Prelude.{◌≡◌, ◌≤◌, All};
ghost use Rattle.broker_steps.specs.Ranges.{IsLimits};
ghost use Rattle.trial_script.specs.Grammar.{IsAction};
ghost use Rattle.trial_script.specs.Scripts.{script_of};
ghost use Rattle.trial_run.specs.Trial.{trial_limits};
ghost use Rattle.trial_jobs.specs.MethodLaw.{IsFresh};
ghost use Rattle.trial_threads.specs.Users.{parts_of};
ghost use Rattle.trial_threads.specs.Whole.{ToldOf, Tells};

use crate::begin::Users;
use crate::collect::collect;
use crate::parts::bad_line;
use crate::play::play;
use crate::stop::Stop;
use crate::trial::{ThreadTrial, ThreadTrialEnd};
use crate::typist_by;
use broker_steps::{FORM_1_WEIGHT, Limits};
use hub_lock::{Gate, Hub, NoSession};
use std::alloc::Global;
use std::sync::Wait;
use std::thread::Threads;
use trial_run::TrialTypist;
use trial_script::{Script, read_script};

// The limits of a trial: the most entries of its journal, and the most bytes that are stored for a
// peer.
fn trial_limits() -> Limits
    ensures value { result ≡ trial_limits }
    ensures valid { IsLimits result }
{
    Limits {
        entries: 1_000_000,
        store: 65_536,
        weight: FORM_1_WEIGHT,
    }
}

// Plays what the users of a script do to the end.
fn run_users<R: Threads + Wait + Sync, G: Gate + Sync>(
    rt: &R,
    alloc: Global,
    typist: TrialTypist,
    users: &Users<'_>,
    gate: &G,
) -> Result<ThreadTrial, ThreadTrialEnd>
    requires fresh { IsFresh typist }
    requires few { users.now.fields ≤ 16 }
    requires actions { All IsAction users.now.actions.now }
    ensures { ToldOf typist
        (parts_of users.now.fields users.now.first users.now.actions.now) result }
{
    let (hub, mut root) = Hub::new(alloc, trial_limits())?;
    let mut jobs = Vec::new(alloc);
    let stopped = play(rt, alloc, &hub, &mut root, typist, users, &mut jobs, gate);
    let logs = collect(alloc, &hub, &mut root, jobs)?;
    let session = match hub.session(rt, &mut root) {
        Ok(session) => session,
        Err(NoSession::NoMemory) => return Err(ThreadTrialEnd::NoMemory),
        Err(NoSession::HandedOut) => unreachable!(),
    };
    let trial = ThreadTrial {
        logs: logs.fields,
        method_log: logs.method,
        session,
    };
    match stopped {
        None => Ok(trial),
        Some(why) => match why {
            Stop::Full(kept) => Err(ThreadTrialEnd::JournalFull(kept, trial)),
            Stop::NoMemory => Err(ThreadTrialEnd::NoMemory),
            Stop::TooManyPeers(_) => unreachable!(),
            Stop::BadEvent => unreachable!(),
        },
    }
}

/// Plays a script without `pause`, `resume` and `show`, which are outside its grammar, with a thread
/// for each field, for the method and for the shell, beside each other over one hub.
///
/// The peers join as in `run_trial`, and send their set-up. Then each field makes its own edits, the
/// method commits the script's batches, and the shell focuses, unfocuses and presses, whoever comes
/// first. When all are done, the method and then each field takes what is stored for it and answers,
/// until nothing is.
///
/// `BadLine` comes where a line is outside the grammar or `end` is missing, `JournalFull` where a
/// step meets a journal with 1,000,000 entries or of its greatest weight; `NoMemory` may come at any
/// time. (Wait: it promises what it does if it returns.)
pub fn run_trial_threads<R: Threads + Wait + Sync, G: Gate + Sync>(
    rt: &R,
    alloc: Global,
    script: &[u8],
    gate: &G,
) -> Result<ThreadTrial, ThreadTrialEnd>
    ensures { Tells (script_of script.now) result }
{
    let Script {
        rules,
        fields,
        first_line,
        actions,
        ending,
    } = read_script(alloc, script)?;
    if let Some(number) = bad_line(first_line, actions.as_slice(), ending)? {
        return Err(ThreadTrialEnd::BadLine(number));
    }
    let typist = typist_by(alloc, rules)?;
    let users = Users {
        fields,
        first: (first_line % (1 << 32)) as u32,
        actions: actions.as_slice(),
    };
    run_users(rt, alloc, typist, &users, gate)
}

//! What the words ask for, over an output.
ghost use Rattle.std.specs.Prelude.{◌≡◌, ◌≢◌, ◌≤◌, ◌↔◌, ◌⊎◌, None, IfSome, map, string_bytes};
ghost use Rattle.std.specs.Io.KnownBytes.{Appends};
ghost use Rattle.wio_core.specs.Io.{Rose};
ghost use Rattle.broker_model.specs.declared.journal.Kept.{Kept};
ghost use Rattle.trial_threads.specs.declared.trial.ThreadTrial.{ThreadTrial};
ghost use Rattle.program_threads.specs.Words.{number_asked};
ghost use Rattle.program_threads.specs.Output.{output_of, GrowsByPart};
ghost use Rattle.program_threads.specs.Played.{IsPlayed, IsCutOff, MayCome};

use crate::command::number_asked;
use crate::play::{Stop, play};
use program_run::Status;
use std::alloc::Global;
use std::sync::Wait;
use std::thread::Threads;
use trial_threads::Gate;
use wio_core::{Failed, Sink, write_all};

/// Plays the drawn trial of the number in threads, where the words are `trial-threads` and a
/// decimal number below 2^64 without a zero in front, and writes the line of each field, as `show`
/// of `trial` does, and then `end`. Nothing is read. The gate is called before and after each edit
/// of a field's own user.
///
/// `BadWords` comes exactly where the words are others. `JournalFull` and `NoMemory` come where the
/// trial ends so, and then nothing is written; `NoMemory` may come at any time.
/// (Wait: it promises what it does if it returns.)
pub fn run_threads<R: Threads + Wait + Sync, G: Gate + Sync, K: Sink>(
    rt: &R,
    alloc: Global,
    words: &[String],
    gate: &G,
    output: &mut K,
) -> Status
    // The words are in no grammar exactly where the answer says so.
    ensures bad_words { (result ≡ Status.BadWords)
        ↔ (number_asked (map string_bytes words.now) ≡ None) }

    // The output is that of a trial of the number, played to its end in threads.
    ensures whole { result ≡ Status.Ok → IfSome (number_asked (map string_bytes words.now))
        (λ n. (t : ThreadTrial) × IsPlayed n t
        × Appends (K.held output.old) (K.held output.new) (output_of t)) }

    // Where a write failed, a front of such an output was written, and not the whole.
    ensures front { result ≡ Status.WriteFault →
        IfSome (number_asked (map string_bytes words.now))
        (λ n. (t : ThreadTrial) × IsPlayed n t
        × GrowsByPart (K.held output.old) (K.held output.new) (output_of t)) }

    // The journal was full for a step of a trial of the number.
    ensures full { result ≡ Status.JournalFull →
        IfSome (number_asked (map string_bytes words.now))
        (λ n. (kept : Kept) × (t : ThreadTrial) × IsCutOff n kept t) }

    // In all other cases nothing is written.
    ensures untouched { result ≢ Status.Ok → result ≢ Status.WriteFault →
        output.new ≡ output.old }

    // No other status comes.
    ensures known { MayCome result }

    // A fault has its cause, and no other status hides a failed write.
    ensures write_fault { result ≡ Status.WriteFault →
        Rose (K.fault_count output.old) (K.fault_count output.new) }
    ensures writes_never_fall { K.fault_count output.old ≤ K.fault_count output.new }
    ensures no_write_fault { result ≢ Status.WriteFault →
        K.fault_count output.new ≡ K.fault_count output.old }
{
    let Some(number) = number_asked(words) else {
        return Status::BadWords;
    };
    let text = match play(rt, alloc, number, gate) {
        Ok(text) => text,
        Err(Stop::Full) => return Status::JournalFull,
        Err(Stop::NoMemory) => return Status::NoMemory,
    };
    match write_all(output, text.as_bytes()) {
        Ok(()) => Status::Ok,
        Err(Failed) => Status::WriteFault,
    }
}

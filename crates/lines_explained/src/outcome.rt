//! What a batch came to, its group put or left out.
ghost use Rattle.std.specs.Prelude.{◌≡◌, ◌++◌, OnOk, string_bytes};
ghost use Rattle.lines_explained.specs.Outcome.{outcome_of, why_words, outcome_words};

use crate::phrase::add_phrase;
use relay_model::Label;
use relay_reasons::{BatchFate, Reason};
use wio_core::NoMemory;

/// Why a batch that a method commits reached nobody.
#[derive(Clone, Copy, Debug, PartialEq, Eq)]
pub enum WhyNobody {
    /// It was relayed to no field.
    Unrelayed(Reason),
    /// It was relayed, and its group didn't fit the store of the field's peer, which ends for that.
    NoRoom,
}

/// What came of a batch that a method commits.
#[derive(Clone, Copy, Debug, PartialEq, Eq)]
pub enum Outcome {
    /// It is queued for the field, with that count of the field's commits, modulo 2^32.
    Queued { field: Label, count: u32 },
    /// It reached nobody.
    ReachedNobody(WhyNobody),
}

/// What came of a batch that came to this on the relay, and whether its group was put.
pub fn outcome_of(fate: BatchFate, was_put: bool) -> Outcome
    ensures { result ≡ outcome_of fate was_put }
{
    match fate {
        BatchFate::Relayed { field, count } => {
            if was_put {
                Outcome::Queued { field, count }
            } else {
                Outcome::ReachedNobody(WhyNobody::NoRoom)
            }
        }
        BatchFate::Unrelayed(reason) => Outcome::ReachedNobody(WhyNobody::Unrelayed(reason)),
    }
}

fn words_of(why: WhyNobody) -> &'static str
    ensures { result.now ≡ why_words why }
{
    match why {
        WhyNobody::Unrelayed(Reason::NotServing) => "the method does not serve",
        WhyNobody::Unrelayed(Reason::NoActivation) => "no activation stands",
        WhyNobody::Unrelayed(Reason::NamesNoDone) => "the serial names no done",
        WhyNobody::Unrelayed(Reason::EarlierActivation) => {
            "the serial names a done of an earlier activation"
        }
        WhyNobody::NoRoom => "its group did not fit the store of the field's peer",
    }
}

/// Adds to a line what came of a batch.
pub fn add_outcome(line: &mut String, outcome: Outcome) -> Result<(), NoMemory>
    ensures { OnOk result (string_bytes line.new ≡ string_bytes line.old ++ outcome_words outcome) }
{
    match outcome {
        Outcome::Queued { field, count } => add_phrase(
            line,
            ", queued for field",
            Some(field),
            " with count",
            Some(count),
        ),
        Outcome::ReachedNobody(why) => {
            add_phrase(line, ", reached nobody: ", None, words_of(why), None)
        }
    }
}

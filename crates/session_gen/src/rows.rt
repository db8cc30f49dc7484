//! The steps that the generator's words draw.
ghost use Rattle.std.specs.Prelude.{◌≡◌, IfOk, pos, codes};
ghost use Rattle.wl_proto.specs.Rows.{request_message};
ghost use Rattle.broker_steps.specs.Ranges.{IsStep};
ghost use Rattle.session_gen.specs.Sending.{IsShort, field_sends, method_sends};
ghost use Rattle.session_gen.specs.Sending.{set_surrounding_text, commit_string};
ghost use Rattle.session_gen.specs.Sending.{set_preedit_string};
ghost use Rattle.session_gen.specs.Rows.{row_of, row_step, drawn, letter};
ghost use Rattle.wl_proto.specs.declared.request.Request.TheVariants.{DeleteSurroundingText};
ghost use Rattle.wl_proto.specs.declared.request.Request.TheVariants.{InputMethodCommit};

use crate::letters::letter_of;
use crate::sending::request_step;
use broker_steps::{ShellStep, Step};
use std::alloc::Global;
use wio_core::NoMemory;
use wl_proto::Request;

/// The surface of each app peer.
const SURFACE: u32 = 6;

/// The text input of each app peer.
const FIELD: u32 = 7;

/// The peer that has the input method, and the input method's id there.
const METHOD_PEER: u32 = 5;

const METHOD: u32 = 5;

/// The most bytes that one step takes.
const PIECE: u32 = 4_096;

// What a word draws.
#[derive(Clone, Copy)]
pub(crate) enum Row {
    Focus,
    Unfocus,
    Enable,
    Commit,
    SurroundingText,
    ChangeCause,
    CommitString,
    Preedit,
    Deletion,
    MethodCommit,
    Take,
}

/// The rows, by the word's lowest four bits.
const ROWS: [Row; 16] = [
    Row::Focus,
    Row::Unfocus,
    Row::Enable,
    Row::Enable,
    Row::Commit,
    Row::Commit,
    Row::Commit,
    Row::SurroundingText,
    Row::ChangeCause,
    Row::CommitString,
    Row::CommitString,
    Row::Preedit,
    Row::Deletion,
    Row::MethodCommit,
    Row::MethodCommit,
    Row::Take,
];

// The row of a word.
fn drawn_row(word: u32) -> Row
    ensures { result ≡ row_of word }
{
    ROWS[(word % 16) as usize]
}

// The step that a word draws where so many done events were put into the method's store.
#[tactic(auto, unfolding(crate::specs::Rows::drawn))]
pub(crate) fn drawn_step(alloc: Global, word: u32, dones: u32) -> Result<Step, NoMemory>
    ensures step { IfOk result (λ step. step ≡ drawn word dones) }
    ensures valid { IfOk result IsStep }
{
    let peer = 1 + word / 256 % 4;
    let value = word / 65_536 % 256;
    step_of_row(alloc, drawn_row(word), peer, value, dones)
}

// What the row means for the app peer and the value.
fn step_of_row(alloc: Global, row: Row, peer: u32, value: u32, dones: u32) -> Result<Step, NoMemory>
    ensures step { IfOk result (λ step. step ≡ row_step row peer value dones) }
    ensures valid { IfOk result IsStep }
{
    match row {
        Row::Focus => Ok(Step::Shell(ShellStep::Focus { peer, id: SURFACE })),
        Row::Unfocus => Ok(Step::Shell(ShellStep::Unfocus)),
        Row::Enable => field_step(alloc, peer, &Request::Enable),
        Row::Commit => field_step(alloc, peer, &Request::TextInputCommit),
        Row::SurroundingText => surrounding_step(alloc, peer, (value % 3) as i32),
        Row::ChangeCause => {
            field_step(
                alloc,
                peer,
                &Request::SetTextChangeCause { cause: value % 2 },
            )
        }
        Row::CommitString => string_step(alloc, value),
        Row::Preedit => preedit_step(alloc, value),
        Row::Deletion => deletion_step(alloc, value % 3),
        Row::MethodCommit => commit_step(alloc, dones.saturating_sub(value % 4)),
        Row::Take => Ok(Step::Take(1 + value % 5, PIECE)),
    }
}

// The peer sends the request to its text input.
fn field_step(alloc: Global, peer: u32, request: &Request<'_>) -> Result<Step, NoMemory>
    requires { IsShort (request_message request.now) }
    ensures value { IfOk result (λ step. step ≡ field_sends peer (request_message request.now)) }
    ensures valid { IfOk result IsStep }
{
    request_step(alloc, peer, FIELD, request)
}

// The method sends the request to its input method.
fn method_step(alloc: Global, request: &Request<'_>) -> Result<Step, NoMemory>
    requires { IsShort (request_message request.now) }
    ensures value { IfOk result (λ step. step ≡ method_sends (request_message request.now)) }
    ensures valid { IfOk result IsStep }
{
    request_step(alloc, METHOD_PEER, METHOD, request)
}

// The field tells "ab" with cursor and anchor at this place.
fn surrounding_step(alloc: Global, peer: u32, place: i32) -> Result<Step, NoMemory>
    ensures value { IfOk result (λ step.
        step ≡ field_sends peer (set_surrounding_text (codes "ab") place)) }
    ensures valid { IfOk result IsStep }
{
    let request = Request::SetSurroundingText {
        text: "ab",
        cursor: place,
        anchor: place,
    };
    field_step(alloc, peer, &request)
}

// The method commits the value's letter.
fn string_step(alloc: Global, value: u32) -> Result<Step, NoMemory>
    ensures step { IfOk result (λ step. step ≡ method_sends (commit_string (letter value))) }
    ensures valid { IfOk result IsStep }
{
    let mut room = [0; 4];
    let text = letter_of(value, &mut room);
    method_step(alloc, &Request::CommitString { text })
}

// The method shows the value's letter.
fn preedit_step(alloc: Global, value: u32) -> Result<Step, NoMemory>
    ensures step { IfOk result (λ step.
        step ≡ method_sends (set_preedit_string (letter value) (pos 0) (pos 1))) }
    ensures valid { IfOk result IsStep }
{
    let mut room = [0; 4];
    let text = letter_of(value, &mut room);
    let request = Request::SetPreeditString {
        text,
        begin: 0,
        end: 1,
    };
    method_step(alloc, &request)
}

// The method deletes so many bytes before the cursor.
fn deletion_step(alloc: Global, before: u32) -> Result<Step, NoMemory>
    ensures step { IfOk result (λ step.
        step ≡ method_sends (request_message (DeleteSurroundingText before 0))) }
    ensures valid { IfOk result IsStep }
{
    method_step(alloc, &Request::DeleteSurroundingText { before, after: 0 })
}

// The method commits with this serial.
fn commit_step(alloc: Global, serial: u32) -> Result<Step, NoMemory>
    ensures step { IfOk result (λ step.
        step ≡ method_sends (request_message (InputMethodCommit serial))) }
    ensures valid { IfOk result IsStep }
{
    method_step(alloc, &Request::InputMethodCommit { serial })
}

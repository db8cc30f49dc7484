//! The act that a request is, or a step of the shell.
ghost use Rattle.std.specs.Prelude.{◌≡◌, ℕ, ◌==◌, if◌then◌else◌, IfOk};
ghost use Rattle.wl_proto.specs.Rows.{request_message};
ghost use Rattle.relay_model.specs.declared.act.Act.TheVariants as acts;
ghost use Rattle.broker_model.specs.Ids.{Past};
ghost use Rattle.broker_model.specs.Requests as requests;
ghost use Rattle.broker_model.specs.Resolve.{on_surface};
ghost use Rattle.broker_model.specs.Resolve as resolve;
ghost use Rattle.broker_wire.specs.Asked.{HasText, IsSurface, IsNamed};

use broker_model::ShellStep;
use relay_model::{Act, Keymap, Label, Mods, Rect, Role};
use std::alloc::Global;
use wl_proto::Request;
use wl_wire::{NoMemory, Text};

// The act of a bind: the seat is the global with the name 2.
fn bind_act(peer: Label, name: u32) -> Act
    ensures { result ≡ (if name == 2 then acts.Seat peer else acts.Thing peer) }
{
    if name == 2 {
        Act::Seat { peer }
    } else {
        Act::Thing { peer }
    }
}

/// The act of a request that isn't refused, which the peer with this label and role sent to its
/// object. Where a popup is asked for, `surface` is the label of its surface; else it says nothing.
/// `NoMemory` comes where there is none for a copy of a text.
pub(crate) fn act_of(
    alloc: Global,
    request: &Request,
    peer: Label,
    object: Label,
    role: Role,
    surface: Label,
) -> Result<Act, NoMemory>
    requires { HasText request.now }
    ensures { (at : ℕ → ℕ) → IsSurface at request.now surface →
        let m = request_message request.now in
        IfOk result (λ act.
        act ≡ requests.act_of peer object role at m.interface m.opcode m.values) }
{
    Ok(match *request {
        Request::Sync { .. } => Act::Sync { peer },
        Request::GetRegistry { .. } => Act::Registry { peer, role },
        Request::Bind { name, .. } => bind_act(peer, name),
        Request::CreateSurface { .. } => Act::Surface { peer },
        Request::GetTextInput { .. } => Act::Field { peer },
        Request::GetInputMethod { .. } => Act::Method { peer },
        Request::SurfaceDestroy
        | Request::TextInputManagerDestroy
        | Request::TextInputDestroy
        | Request::InputMethodManagerDestroy
        | Request::InputMethodDestroy
        | Request::InputPopupSurfaceDestroy
        | Request::KeyboardGrabRelease
        | Request::VirtualKeyboardDestroy => Act::Drop { label: object },
        Request::Damage { .. }
        | Request::SurfaceCommit
        | Request::GetPointer { .. }
        | Request::GetKeyboard { .. }
        | Request::GetTouch { .. } => Act::Idle,
        Request::Enable => Act::Enable { field: object },
        Request::Disable => Act::Disable { field: object },
        Request::SetSurroundingText {
            text,
            cursor,
            anchor,
        } => Act::Surround {
            field: object,
            text: Text::of(alloc, text)?,
            cursor,
            anchor,
        },
        Request::SetTextChangeCause { cause } => Act::Cause {
            field: object,
            cause,
        },
        Request::SetContentType { hint, purpose } => Act::Content {
            field: object,
            hint,
            purpose,
        },
        Request::SetCursorRectangle {
            x,
            y,
            width,
            height,
        } => Act::Cursor {
            field: object,
            rect: Rect {
                x,
                y,
                width,
                height,
            },
        },
        Request::TextInputCommit => Act::Commit { field: object },
        Request::CommitString { text } => Act::MString {
            method: object,
            text: Text::of(alloc, text)?,
        },
        Request::SetPreeditString { text, begin, end } => Act::MPreedit {
            method: object,
            text: Text::of(alloc, text)?,
            begin,
            end,
        },
        Request::DeleteSurroundingText { before, after } => Act::MDelete {
            method: object,
            before,
            after,
        },
        Request::InputMethodCommit { serial } => Act::MCommit {
            method: object,
            serial,
        },
        Request::GetInputPopupSurface { .. } => Act::Popup {
            method: object,
            surface,
        },
        Request::GrabKeyboard { .. } => Act::Grab { method: object },
        Request::CreateVirtualKeyboard { .. } => Act::VBoard { peer },
        Request::Keymap {
            format,
            token,
            size,
        } => Act::VKeymap {
            board: object,
            keymap: Keymap {
                format,
                token,
                size,
            },
        },
        Request::Key { time, key, state } => Act::VKey {
            board: object,
            time,
            key,
            state,
        },
        Request::Modifiers {
            depressed,
            latched,
            locked,
            group,
        } => Act::VMods {
            board: object,
            mods: Mods {
                depressed,
                latched,
                locked,
                group,
            },
        },
    })
}

// Nothing happens where no surface is alive under the id.
fn focus_act(surface: Option<Label>) -> Act
    ensures { result ≡ on_surface surface (λ s. acts.Focus s) }
{
    match surface {
        Some(surface) => Act::Focus { surface },
        None => Act::Idle,
    }
}

fn area_act(surface: Option<Label>, rect: Rect) -> Act
    ensures { result ≡ on_surface surface (λ s. acts.Area s rect) }
{
    match surface {
        Some(surface) => Act::Area { surface, rect },
        None => Act::Idle,
    }
}

/// The act of a step of the shell. Where the step names a surface, `surface` is its label, or None
/// where none is alive under the id; else it says nothing.
pub fn shell_act(step: &ShellStep, surface: Option<Label>) -> Act
    ensures { (past : Past) → IsNamed past step.now surface →
        result ≡ resolve.shell_act past step.now }
{
    match *step {
        ShellStep::Focus { .. } => focus_act(surface),
        ShellStep::Unfocus => Act::Unfocus,
        ShellStep::Area { rect, .. } => area_act(surface, rect),
        ShellStep::Screen { size } => Act::Screen { size },
        ShellStep::Key { time, key, state } => Act::Key { time, key, state },
        ShellStep::Mods(mods) => Act::Mods(mods),
        ShellStep::Keymap(keymap) => Act::Keymap(keymap),
        ShellStep::Repeat(repeat) => Act::Repeat(repeat),
        ShellStep::At { .. } => Act::Idle,
    }
}

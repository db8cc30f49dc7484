//! The focus, and the fields that are entered.
ghost use Rattle.std.specs.Prelude.{◌≡◌};
ghost use Rattle.relay_model.specs.Focus.{last_focus, where_alive, focus, focus_since};
ghost use Rattle.relay_model.specs.Focus.{focused_peer, entered, entered_since};

use crate::objects::{alive, is_field, is_same, next, peer_of};
use relay_model::{Act, Label};

// The surface of the last focus act, where no unfocus came since.
fn last_focus(log: &[Act]) -> Option<Label>
    ensures { result ≡ last_focus log.now }
{
    match log {
        [] => None,
        [act, older @ ..] => match act {
            Act::Focus { surface } => Some(*surface),
            Act::Unfocus => None,
            _ => last_focus(older),
        },
    }
}

/// The label, where its object is alive.
pub fn where_alive(log: &[Act], label: Option<Label>) -> Option<Label>
    ensures { result ≡ where_alive log.now label }
{
    match label {
        Some(there) if alive(log, there) => label,
        _ => None,
    }
}

/// The surface that has the focus: that of the last focus act, while it is alive.
pub fn focus(log: &[Act]) -> Option<Label>
    ensures { result ≡ focus log.now }
{
    where_alive(log, last_focus(log))
}

// The number of the last focus act.
fn focus_since(log: &[Act]) -> usize
    ensures { result ≡ focus_since log.now }
{
    match log {
        [] => 0,
        [act, older @ ..] => match act {
            Act::Focus { .. } => next(older),
            _ => focus_since(older),
        },
    }
}

// The peer of the surface that has the focus.
fn focused_peer(log: &[Act]) -> Option<Label>
    ensures { result ≡ focused_peer log.now }
{
    match focus(log) {
        Some(surface) => peer_of(log, surface),
        None => None,
    }
}

/// The field is alive, and its peer's surface has the focus (`zwp_text_input_v3.enter`).
pub fn entered(log: &[Act], field: Label) -> bool
    ensures { result ≡ entered log.now field }
{
    is_field(log, field) && is_same(peer_of(log, field), focused_peer(log))
}

// Since when a field is entered: the later of the act that gave the focus and the field's own making.
pub(crate) fn entered_since(log: &[Act], field: Label) -> usize
    ensures { result ≡ entered_since log.now field }
{
    focus_since(log).max(field as usize)
}

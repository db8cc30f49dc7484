//! The event that a message spells.
ghost use Rattle.std.specs.Prelude.{◌≤◌, [], length, IfSome, IfNone};
ghost use Rattle.client_side.specs.Fitting.{IsFitting};
ghost use Rattle.client_side.specs.Events.{IsEventIn};
ghost use Rattle.wl_proto.specs.declared.event.Event as events;

use wl_proto::{Event, Interface, read_event};
use wl_wire::Raw;

// The event that the message spells, where its object has this interface.
pub(crate) fn event_to<'a>(interface: Interface, raw: &Raw<'a>) -> Option<Event<'a>>
    requires { length raw.now.body.now ≤ 4088 }
    ensures found { IfSome result (λ e. IsEventIn interface raw.now.opcode raw.now.body.now e) }
    ensures none { IfNone result ((e : events.Event) →
        IsEventIn interface raw.now.opcode raw.now.body.now e → ⊥) }
    ensures fits { IfSome result IsFitting }
{
    match read_event(interface, raw, &[]) {
        Ok(event) => Some(event),
        Err(_) => None,
    }
}

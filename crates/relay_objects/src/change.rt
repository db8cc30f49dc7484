//! What is done to one live object.
ghost use Rattle.std.specs.Prelude.{◌≡◌};
ghost use Rattle.relay_objects.specs.Changes.{FitsChange, field_after, area_after, changed_by};

use crate::asking::ask;
use crate::object::{Kind, Object, is_number};
use field_state::{Field, Room};
use relay_model::{Act, Label, Rect};

/// A change of one object: of a field, or of a surface. Other objects stay as they are.
#[derive(Clone, Copy)]
pub enum Change<'a> {
    /// The act is a request of the field, other than a commit.
    Ask(&'a Act),
    /// The focus is this peer's now, or nobody's.
    Focus(Option<Label>),
    /// The field commits.
    Commit,
    /// Another field's commit takes the seat.
    Displace,
    /// The surface is there on the screen.
    Area(Rect),
}

// The field belongs to the peer.
fn change_field(field: &mut Field, peer: Label, change: Change<'_>, room: &mut Option<Room>)
    requires { FitsChange change room.old }
    ensures { field.new ≡ field_after change.entry peer field.old }
{
    match change {
        Change::Ask(act) => ask(field, act, room),
        Change::Focus(focused) => {
            if is_number(focused, peer) {
                field.enter();
            } else {
                field.leave();
            }
        }
        Change::Commit => {
            let _ = field.commit();
        }
        Change::Displace => field.displace(),
        Change::Area(_) => {}
    }
}

fn change_area(area: &mut Rect, change: Change<'_>)
    ensures { area.new ≡ area_after change.entry area.old }
{
    if let Change::Area(rect) = change {
        *area = rect;
    }
}

impl Object {
    /// Makes the change. A field's first text takes the room.
    pub fn change(&mut self, change: Change<'_>, room: &mut Option<Room>)
        requires { FitsChange change room.old }
        ensures { self.new ≡ changed_by change.entry self.old }
    {
        match &mut self.kind {
            Kind::Field(field) => change_field(field, self.peer, change, room),
            Kind::Surface { area } => change_area(area, change),
            Kind::Peer
            | Kind::Method
            | Kind::Popup { .. }
            | Kind::Grab { .. }
            | Kind::Thing
            | Kind::Board => {}
        }
    }
}

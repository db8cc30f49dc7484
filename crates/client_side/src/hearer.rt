//! Who hears what comes to a client.
ghost use Rattle.std.specs.Prelude.{◌≡◌};
ghost use Rattle.trial_field.specs.Log.{IsBatch, batch_of};
ghost use Rattle.wl_proto.specs.declared.event.Event as events;
ghost use Rattle.client_side.specs.Happenings.{Happening, batch, entered, left};

use trial_field::BatchView;
use wl_proto::Event;

/// Hears what happens to a field by what its client receives, one thing after the other. `()` hears
/// nothing.
pub trait FieldHearer {
    /// The hearer before, what happened, and a hearer that may follow.
    ghost may_follow: { Self → Happening → Self → Type 0 };

    /// The field is entered.
    fn entered(&mut self)
        ensures { may_follow self.old entered self.new };

    /// The field is left.
    fn left(&mut self)
        ensures { may_follow self.old left self.new };

    /// The edits that waited are applied at a done with this serial.
    fn batch(&mut self, edits: &BatchView<'_>, serial: u32)
        requires { IsBatch edits.now }
        ensures { may_follow self.old (batch (batch_of edits.now) serial) self.new };
}

impl FieldHearer for () {
    ghost may_follow = { λ before happening after. Unit {0} };

    fn entered(&mut self) {}

    fn left(&mut self) {}

    fn batch(&mut self, _edits: &BatchView<'_>, _serial: u32) {}
}

/// Hears each event that the method's client receives. `()` hears nothing.
pub trait MethodHearer {
    /// The hearer before, the event, and a hearer that may follow.
    ghost may_follow: { Self → events.Event → Self → Type 0 };

    /// The event came.
    fn came(&mut self, event: &Event<'_>)
        ensures { may_follow self.old event.now self.new };
}

impl MethodHearer for () {
    ghost may_follow = { λ before event after. Unit {0} };

    fn came(&mut self, _event: &Event<'_>) {}
}

//! What types: keys go in, and the strings and preedits of batches come out.
ghost use Rattle.std.specs.Prelude.{◌≡◌, ◌≤◌, ℕ, Some, None, IfSome, IsNone, IsTrue, length};
ghost use Rattle.std.specs.Borrow.{sem};
ghost use Rattle.std.specs.Io.BufRead.{Rests};
ghost use Rattle.wl_wire.specs.Texts.{has_no_zero};

use crate::method::Method;
use wl_proto::Event;

/// The longest string of a press, in bytes: what `zwp_input_method_v2.commit_string` can carry.
pub const MAX_STRING: usize = 4_083;

/// The longest preedit of a press, in bytes: what `zwp_input_method_v2.set_preedit_string` can
/// carry.
pub const MAX_PREEDIT: usize = 4_075;

/// Answers each press of a key with the string and the preedit of one batch, or with nothing.
///
/// Its state is what contracts see of it, which is plain data. What a press gives, the state after
/// it and the state after an event are its meanings over that state, and the calls keep to them.
pub trait Typist: Drop {
    ghost use Rattle.compose_method.specs.Typists.{Meanings};

    /// What its presses and events mean.
    ghost meanings: { Meanings Self };

    /// The string and the preedit of the batch that this press makes, at most [`MAX_STRING`] and
    /// [`MAX_PREEDIT`] bytes with no zero byte, or `None` where it makes none.
    fn press(&mut self, key: u32) -> Option<(&str, &str)>
        ensures* after { sem 𝓛 (Rests Self.row self.entry (λ new.
            new ≡ meanings.pressed key self.old)) }
        ensures none { IsNone result → meanings.gives key self.old ≡ None }
        ensures batch { IfSome result (λ b.
            meanings.gives key self.old ≡ Some (b.0.now, b.1.now)) }
        ensures fits { IfSome result (λ b. (length b.0.now ≤ MAX_STRING) ×
            (length b.1.now ≤ MAX_PREEDIT)) }
        ensures clean { IfSome result (λ b. IsTrue (has_no_zero b.0.now) ×
            IsTrue (has_no_zero b.1.now)) };

    /// Takes an event of `zwp_input_method_v2`, or another, which changes nothing.
    fn event(&mut self, event: &Event<'_>)
        ensures { self.new ≡ meanings.after_event event.now self.old };
}

impl Typist for Method {
    ghost use Rattle.compose_method.specs.Typists.{composing};

    ghost meanings = { composing };

    fn press(&mut self, key: u32) -> Option<(&str, &str)> {
        Method::press(self, key)
    }

    fn event(&mut self, event: &Event<'_>) {
        Method::event(self, event)
    }
}

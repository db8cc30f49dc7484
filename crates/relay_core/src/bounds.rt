//! How much an act can tell, known before it is taken.
ghost use Rattle.std.specs.Prelude.{◌≡◌, ◌+◌, IfSome, length};
ghost use Rattle.relay_core.specs.Kept.{state};
ghost use Rattle.relay_core.specs.Bounds.{fields_at, most_told, popups_count};

use crate::machine::Machine;
use crate::turning::owner_at;
use relay_model::{Act, Label};

impl Machine {
    // How many fields the peer of an object has that may be there.
    fn fields_at(&self, label: Option<Label>) -> usize
        ensures { result ≡ fields_at (state self.now) label }
    {
        match owner_at(&self.objects, label) {
            Some(peer) => self.objects.fields_of(peer).len(),
            None => 0,
        }
    }

    fn popups_count(&self) -> usize
        ensures { result ≡ popups_count (state self.now) }
    {
        self.objects.popups().len()
    }

    /// No more events than this are told of the act; none where there is no such number.
    pub fn most_told(&self, act: &Act) -> Option<usize>
        ensures { IfSome result (λ n. n ≡ most_told act.now (state self.now)) }
    {
        match act {
            Act::Focus { surface } => {
                most(self.fields_at(self.focus), self.fields_at(Some(*surface)))
            }
            Act::Unfocus => most(self.fields_at(self.focus), 0),
            Act::Commit { .. } | Act::Area { .. } | Act::Screen { .. } => {
                most(self.popups_count(), self.popups_count())
            }
            _ => most(0, 0),
        }
    }

    /// The texts that are copied for the act have so many bytes.
    pub fn spare_bytes(&self) -> Option<usize>
        ensures { IfSome result (λ n. n ≡ length self.now.spare.text + length
            self.now.spare.preedit) }
    {
        self.spare.text.len().checked_add(self.spare.preedit.len())
    }
}

// These, and the five events that an act tells besides.
fn most(some: usize, others: usize) -> Option<usize>
    ensures { IfSome result (λ n. n ≡ some + others + 5) }
{
    some.checked_add(others)?.checked_add(5)
}

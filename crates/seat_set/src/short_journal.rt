//! A journal of which few entries stay in memory.
ghost use Rattle.std.specs.Prelude.{◌≡◌, length};
ghost use Rattle.seat_set.specs.Playing.{IsShort, kept_from_after};

use broker_core::Shared;

// So many entries are let go at once.
const MANY: u32 = 256;

/// Where 256 entries of the journal or more are in memory, all are let go, with their stamps, and
/// else none. Who calls it after each line keeps fewer, however long the session is.
#[inline(always)]
pub fn keep_short(shared: &mut Shared)
    ensures same { shared.new ≡ record shared.old {
      kept_from = kept_from_after shared.old.kept_from (length shared.old.journal);
    } }
    ensures short { IsShort shared.new.journal shared.new.kept_from }
{
    let journal = shared.journal();
    let number = journal.len();
    if number - journal.kept_from() >= MANY {
        shared.let_go(number);
    }
}

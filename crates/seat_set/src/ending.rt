//! The unread bytes of peers that end.
ghost use Rattle.std.specs.Prelude.{◌≡◌, false, filter, map};
ghost use Rattle.broker_core.specs.Taking.{lives};
ghost use Rattle.broker_model.specs.Limits.{ends_in_end};
ghost use Rattle.seat_set.specs.Playing.{AreLive};
ghost use Rattle.seat_set.specs.Unread.{waiting};

use crate::unread::{Unread, lives};
use broker_core::Shared;

/// The unread bytes of live peers stay, and no others.
#[inline(never)]
pub(crate) fn keep_live(shared: &Shared, unread: &mut Vec<Unread>)
    ensures { unread.new.items ≡ filter (λ u. lives shared.now.journal u.number) unread.old.items }
{
    unread.retain(|one| lives(shared, one.number));
}

/// The unread bytes of those who ended by a step are given back: where the newest entry is no end,
/// nobody did, and no peer is looked at.
pub(crate) fn forget_ended(shared: &Shared, unread: &mut Vec<Unread>)
    requires { ends_in_end shared.now.journal ≡ false
        → AreLive shared.now.journal (map waiting unread.old.items) }
    ensures { unread.new.items ≡ filter (λ u. lives shared.now.journal u.number) unread.old.items }
{
    if shared.journal().ends_in_end() {
        keep_live(shared, unread);
    }
}

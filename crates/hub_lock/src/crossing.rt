//! A hub and its passes may be used from many threads: these functions are proved.
ghost use Rattle.std.specs.Prelude.{◌≡◌};

use crate::hub::Hub;
use crate::pass::{HubPass, Pass};

fn asks_sync<T: Sync>(_shared: &T) {}

fn asks_send<T: Send>(moved: T) -> T
    ensures { result ≡ moved }
{
    moved
}

/// A hub may be shared by threads, and moved to another.
pub fn may_be_shared(hub: Hub) -> Hub
    ensures { result ≡ hub }
{
    asks_sync(&hub);
    asks_send(hub)
}

/// A pass may be moved to another thread.
pub fn may_cross(pass: Pass) -> Pass
    ensures { result ≡ pass }
{
    asks_send(pass)
}

/// So may the root.
pub fn root_may_cross(root: HubPass) -> HubPass
    ensures { result ≡ root }
{
    asks_send(root)
}

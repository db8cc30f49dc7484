//! A turn lock and its seats may be used from many threads: these functions are proved for every
//! story that may move between threads.
ghost use Rattle.std.specs.Prelude.{◌≡◌};

use crate::seat::Seat;
use crate::story::Story;
use crate::turn::Turn;

fn asks_sync<T: Sync>(_shared: &T) {}

fn asks_send<T: Send>(moved: T) -> T
    ensures { result ≡ moved }
{
    moved
}

/// A lock may be shared by threads, and moved to another.
pub fn may_be_shared<S: Story + Send>(turn: Turn<S>) -> Turn<S>
    ensures { result ≡ turn }
{
    asks_sync(&turn);
    asks_send(turn)
}

/// A seat may be moved to another thread.
pub fn may_cross<S: Story + Send>(seat: Seat<S>) -> Seat<S>
    ensures { result ≡ seat }
{
    asks_send(seat)
}

//! Why a client doesn't take a piece.
use thiserror::Error;
use wio_core::NoMemory;

/// Why a client doesn't take what it received.
#[derive(Clone, Copy, Debug, PartialEq, Eq, Error)]
pub enum ClientFault {
    /// The bytes aren't a spelling of an event of a live object. From then on each piece is
    /// answered so.
    #[error("the bytes are no event of a live object")]
    BadEvent,
    /// There was no memory. The client is as before the call.
    #[error("there was no memory")]
    NoMemory,
}

impl From<NoMemory> for ClientFault {
    ghost use Rattle.std.specs.Prelude.{◌≡◌};
    ghost use Rattle.client_side.specs.declared.fault.ClientFault.TheVariants.{NoMemory};

    ghost from_gives = { λ _ r. r ≡ NoMemory };

    fn from(_: NoMemory) -> Self {
        ClientFault::NoMemory
    }
}

//! Why a message is no message of an interface.
ghost use Rattle.std.specs.Prelude.{◌≡◌};
ghost use Rattle.wl_proto.specs.declared.refuse.Refuse.TheVariants as refuse;

use thiserror::Error;
use wl_wire::Malformed;

/// Why a message can't be read.
#[derive(Clone, Copy, Debug, PartialEq, Eq, Error)]
pub enum Refuse {
    /// The interface has no row with the opcode.
    #[error("the interface has no row with the opcode")]
    Opcode,
    /// The body is no spelling of the row's arguments, or the row has a descriptor and no token was given.
    #[error("the body is no spelling of the row's arguments")]
    Malformed,
}

impl From<Malformed> for Refuse {
    ghost from_gives = { λ _ e. e ≡ refuse.Malformed };

    fn from(_: Malformed) -> Refuse {
        Refuse::Malformed
    }
}

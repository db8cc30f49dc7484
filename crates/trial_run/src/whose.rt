//! Which client of a trial.
ghost use Rattle.std.specs.Prelude.{◌≡◌, ◌+◌, ◌<◌, ◌≤◌, ◌^◌};
ghost use Rattle.trial_run.specs.Play.{number_of};
ghost use Rattle.trial_run.specs.Working.{IsNumbered};

/// Which client of a trial, as the definitions of a trial speak of them.
#[derive(Clone, Copy, Debug, PartialEq, Eq)]
pub enum Whose {
    /// The method's.
    Method,
    /// That of the field with this index, from 0.
    Field(usize),
}

// The number of the client's peer: the method joins first, and then the fields in order.
pub(crate) fn number_of(who: Whose) -> u32
    requires { IsNumbered who }
    ensures { result ≡ number_of who }
{
    match who {
        Whose::Method => 1,
        Whose::Field(index) => index as u32 + 2,
    }
}

//! Numbers of C in place of what the safe calls take and answer.
ghost use Rattle.std.specs.Prelude.{◌≡◌};
ghost use Rattle.c_library.specs.Codes as coded;

use crate::answer;
use broker_steps::Stamp;
use c_broker::{JoinRefusal, Refused, Route, Standing};
use relay_model::{EndCause, Role};

/// A peer that is offered what an application is.
pub const APP: u32 = 1;

/// What an input method is.
pub const METHOD: u32 = 2;

/// What an input method that has virtual keyboards is.
pub const KEYED: u32 = 3;

// The most bytes that are said to be stored.
const MOST_SAID: usize = 4_294_967_295;

// The role with the number.
pub(crate) fn role_of(role: u32) -> Option<Role>
    ensures { result ≡ coded.role_of role }
{
    if role == APP {
        Some(Role::App)
    } else if role == METHOD {
        Some(Role::Method)
    } else if role == KEYED {
        Some(Role::Keyed)
    } else {
        None
    }
}

// The stamp of a call of C, which has no author.
pub(crate) fn stamp_at(moment: u64) -> Stamp
    ensures { result ≡ coded.stamp_at moment }
{
    Stamp { moment, author: 0 }
}

// The answer to a join: the peer's number, or why none joined.
pub(crate) fn join_code(answer: Result<u32, JoinRefusal>) -> i64
    ensures { result ≡ coded.join_code answer }
{
    match answer {
        Ok(number) => i64::from(number),
        Err(JoinRefusal::TooManyPeers(_)) => answer::MANY,
        Err(JoinRefusal::JournalFull(_)) => answer::FULL,
        Err(JoinRefusal::NoMemory) => answer::NO_MEMORY,
    }
}

// Why a step wasn't taken.
fn refusal_code(why: Refused) -> i64
    ensures { result ≡ coded.refusal_code why }
{
    match why {
        Refused::NoPeer => answer::NOBODY,
        Refused::Ended(_) => answer::ENDED,
        Refused::JournalFull(_) => answer::FULL,
        Refused::NoMemory => answer::NO_MEMORY,
    }
}

// The answer of what is done or refused.
pub(crate) fn done_code(answer: Result<(), Refused>) -> i64
    ensures { result ≡ coded.done_code answer }
{
    match answer {
        Ok(()) => answer::GIVEN,
        Err(why) => refusal_code(why),
    }
}

// Where a key went.
fn route_code(route: Route) -> i64
    ensures { result ≡ coded.route_code route }
{
    match route {
        Route::ToGrab(_) => answer::TO_GRAB,
        Route::Pass => answer::PASSED,
        Route::Nowhere => answer::NOWHERE,
        Route::TooMany => answer::TOO_MANY,
    }
}

// The answer to an order of the shell: of a key where it went.
pub(crate) fn order_code(answer: Result<Option<Route>, Refused>) -> i64
    ensures { result ≡ coded.order_code answer }
{
    match answer {
        Ok(None) => answer::GIVEN,
        Ok(Some(route)) => route_code(route),
        Err(why) => refusal_code(why),
    }
}

// How a peer stands.
pub(crate) fn standing_code(standing: Standing) -> i64
    ensures { result ≡ coded.standing_code standing }
{
    match standing {
        Standing::Nobody => answer::NOBODY,
        Standing::Alive => answer::ALIVE,
        Standing::Over(EndCause::Gone) => answer::GONE,
        Standing::Over(EndCause::Bad) => answer::BAD,
        Standing::Over(EndCause::Full) => answer::OVER,
    }
}

// How many bytes are stored, as far as the number can say it.
pub(crate) fn stored_code(stored: Option<usize>) -> i64
    ensures { result ≡ coded.stored_code stored }
{
    match stored {
        Some(count) => i64::from(count.min(MOST_SAID) as u32),
        None => answer::NOBODY,
    }
}

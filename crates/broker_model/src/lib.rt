//! The shared state of all peers of a seat, as definitions over its one journal.
//!
//! What is told names an object that is alive or new: laws over the definitions alone. The bodies
//! do nothing: the laws are the contracts.
//! What stays of the peers of a seat that ended: why they did, and what is still stored for them.
#![tactic(auto)]

mod ended_peers;
mod journal;
mod laws;
mod left;
mod rows;
mod stamps;

ghost use Rattle.broker_model.specs.Living.{ActsTellLiving, EntriesTellLiving};
ghost use Rattle.broker_model.specs.Enough.{EnoughTellsAll, DeadCanGo};
ghost use Rattle.broker_model.specs.Kept.{KeptIsEnough};

pub use broker_steps::{ShellStep, TOKEN_LIMIT, TokenList};
pub use ended_peers::EndedPeers;
pub use im_objects::{LAST_ID, MOST_LIVE, Table};
pub use journal::{Entry, Journal, Kept};
pub use laws::{board_law, relay_law, stamp_law, store_law, table_law, token_law};
pub use rows::{base_session, board_sessions, small_sessions, tokens_and_stamps};
pub use stamps::StampList;
pub use wio_core::NoMemory;

/// What an act tells, after any acts, goes to the shell, to an object that is alive before the act
/// or to the one that it makes, and names such objects alone. Of an error this is asked: it must be
/// of its peer's display or of a living object, for an act may name any.
pub fn acts_tell_living()
    ensures { ActsTellLiving }
{}

/// So is all that an entry tells, whatever the journal holds.
pub fn entries_tell_living()
    ensures { EntriesTellLiving }
{}

/// Who finds what living and new objects were made as tells each entry as who keeps all that was
/// ever made: the same messages to the same objects, and each peer the same group.
pub fn enough_tells_all()
    ensures { EnoughTellsAll }
{}

/// What is made and lives is enough for each entry, so what is dead after an entry can be let go.
pub fn dead_can_go()
    ensures { DeadCanGo }
{}

/// What entries made and none let go, by a drop, the end of the peer or the answer to a sync, is
/// enough as well: no entry lets go of what is alive after it.
pub fn kept_is_enough()
    ensures { KeptIsEnough }
{}

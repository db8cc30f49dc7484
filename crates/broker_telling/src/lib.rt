//! What is told is read: the laws of a journal's messages, over the definitions alone. The bodies
//! do nothing: the laws are the contracts.
#![tactic(auto)]

ghost use Rattle.broker_telling.specs.BatchesTold.{BatchesAreRelayed};
ghost use Rattle.broker_telling.specs.BoardsApart.{BoardsAreApart};
ghost use Rattle.broker_telling.specs.Streams.{StreamsAreRead};
ghost use Rattle.broker_telling.specs.ToldRead.{ActsAreSayable, ToldIsWritable, ToldToItsKind};
ghost use Rattle.broker_telling.specs.ToldRead.{WritableIsRead, ToldIsRead, AllIsHeard};

/// The act of each entry that a program can hold can be said: its numbers have 32 bits, and its
/// texts are texts of the protocol.
#[tactic(auto, using(crate::proofs::ActsSayable::acts_sayable))]
pub fn acts_are_sayable()
    ensures { ActsAreSayable }
{}

/// What an entry tells is told to objects of its own interface, whatever the journal holds.
#[tactic(auto, using(crate::proofs::ToldKinds::told_to_its_kind))]
pub fn told_to_its_kind()
    ensures { ToldToItsKind }
{}

/// A message that can be written to an object of its interface is read as itself, by whoever has
/// the tokens that go with it.
pub fn writable_is_read()
    ensures { WritableIsRead }
{}

/// Each thing that an entry tells is a message that can be written, if it is one: it has a row,
/// values of the row's kinds, and at most 4096 bytes.
pub fn told_is_writable()
    ensures { ToldIsWritable }
{}

/// So what an entry tells to an object is read as an event of that object.
pub fn told_is_read()
    ensures { ToldIsRead }
{}

/// What acts tell an object of edits of a text, and of the dones that end batches, are the whole batches
/// that are relayed to it, in order and once each, and nothing else: for every list of acts, whoever
/// gives them, and every object.
#[tactic(auto, using(crate::proofs::BatchesAreRelayed::batches_relayed))]
pub fn batches_are_relayed()
    ensures { BatchesAreRelayed }
{}

/// The board law, for every journal: a key of a virtual keyboard is told where its route leads, its
/// modifiers where its grab is, and nothing else of boards is told; and what is relayed to each
/// field is the same with `Idle` in the place of each act of boards.
pub fn boards_are_apart()
    ensures { BoardsAreApart }
{
    broker_core::board_law();
    broker_model::board_law();
    relay_model::boards_relay_nothing();
}

/// All that a journal of entries that a program can hold puts for a peer are messages one behind
/// the other, and each is read by a client whose objects are that peer's; a keymap, where the token
/// that came with it is at hand.
pub fn all_is_heard()
    ensures { AllIsHeard }
{}

/// What any history of such entries puts for a peer is read in turn, message for message, as what it
/// tells the peer's objects, and as nothing else. An id means to the client the first object that it
/// made under it whose `delete_id` it hasn't read by then, however often it uses ids again.
#[tactic(auto, using(crate::proofs::StreamsRead::streams_read))]
pub fn streams_are_read()
    ensures { StreamsAreRead }
{}

//! The relay of a seat for a program in C, which keeps a `Wlim` and calls the functions here on it, and all peers of a
//! seat by their bytes, which it keeps as a `WlimBroker`. `include/wlim.h` says what each is.
//!
//! What a seat hands out for each field, over all of its calls: the batches that are relayed to it;
//! and how long the texts are. The bodies do nothing: the laws are the contracts.
#![tactic(auto)]

mod answer;
mod batches;
mod board_acts;
mod broker;
mod broker_looks;
mod broker_orders;
mod broker_peers;
#[cfg(test)]
mod broker_tests;
mod broker_told;
mod codes;
mod events;
mod field_acts;
mod held;
mod held_bytes;
mod method_acts;
mod opened;
mod parts;
mod peer_acts;
mod readers;
mod shell_acts;
#[cfg(test)]
mod tests;

ghost use Rattle.c_library.specs.HandedBatches.{HandedBatches};
ghost use Rattle.c_library.specs.TextsFit.{HandedTextsFit};

/// The promise, for who embeds a seat. Of all events that a seat handed out and that wait there, those
/// that edit a field's text, and the dones that end batches (`zwp_text_input_v3.delete_surrounding_text`,
/// `commit_string`, `preedit_string`, `done`), are for each field the whole batches that are relayed to
/// it by the acts that the seat took: in order, once each, and nothing else.
#[tactic(auto, using(crate::proofs::HandedBatches::handed))]
pub fn handed_batches()
    ensures { HandedBatches }
{}

/// The text of each event that a seat hands out has at most 4,083 bytes, where each act was one
/// whose texts fit a message, as those that a seat takes are. A string that a method commits may
/// have so many; a preedit and a surrounding text have fewer.
#[tactic(auto, using(crate::proofs::TextsFit::handed_fit))]
pub fn handed_texts_fit()
    ensures { HandedTextsFit }
{}

//! The tests of the relay with its slow twin, of the state of all peers, and of lines: what text doesn't reach. What it
//! reaches is played by `test_lines`.
#![tactic(auto)]

#[cfg(test)]
mod acts;
#[cfg(test)]
mod acts_by_number;
#[cfg(test)]
mod broker_core_tests;
#[cfg(test)]
mod broker_model_tests;
#[cfg(test)]
mod byte_seat_tests;
#[cfg(test)]
mod equal;
#[cfg(test)]
mod field_streams_tests;
#[cfg(test)]
mod line_tests;
#[cfg(test)]
mod plain_relay_tests;
#[cfg(test)]
mod player_tests;
#[cfg(test)]
mod relay_seat_tests;
#[cfg(test)]
mod seat_audience_tests;

//! Tests of the server over nets in memory and over Unix sockets, with jobs in threads.
#![tactic(auto)]

#[cfg(test)]
mod board;
#[cfg(test)]
mod client;
#[cfg(test)]
mod door_tests;
#[cfg(test)]
mod equal;
#[cfg(test)]
mod mem_tests;
#[cfg(test)]
mod server;
#[cfg(test)]
mod unix_tests;

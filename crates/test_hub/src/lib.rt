//! The tests of the hub and of the loops of links over it: each call once on its happy path, writers that sleep until a
//! bell rings, who records beside peers, links in memory and how they end, and links that race.
#![tactic(auto)]

#[cfg(test)]
mod beside_tests;
#[cfg(test)]
mod board;
#[cfg(test)]
mod call_tests;
#[cfg(test)]
mod equal;
#[cfg(test)]
mod link_tests;
#[cfg(test)]
mod peer;
#[cfg(test)]
mod record_tests;
#[cfg(test)]
mod replay;
#[cfg(test)]
mod turn_tests;
#[cfg(test)]
mod wake_tests;

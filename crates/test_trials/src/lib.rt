//! Tests of generated sessions, of a trial's clients and methods, and of trials, alone and in threads: each public call
//! once on its happy path, numbers that were worked out elsewhere, that jobs run beside each other, and runs under load, each
//! compared with what a replay of its session tells, small ones with what the slow evaluator of the rules tells. Scripts and what they show are cases of `test_lines`.
#![tactic(auto)]

#[cfg(test)]
mod client_tests;
#[cfg(test)]
mod command_tests;
#[cfg(test)]
mod dict_tests;
#[cfg(test)]
mod equal;
#[cfg(test)]
mod gate;
#[cfg(test)]
mod gen_tests;
#[cfg(test)]
mod plain;
#[cfg(test)]
mod scripts;
#[cfg(test)]
mod thread_tests;
#[cfg(test)]
mod told;

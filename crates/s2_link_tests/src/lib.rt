//! Tests of a link's two ends, over public calls alone: calls that no command makes, states after a fault, and memory
//! that is refused. What a command or the library shows is tested by scripts (`docs/working.md`).
//!
//! Shared helpers are in `ends` (small links, writers) and `samples` (the symbols of packets).
#![tactic(auto)]

#[cfg(test)]
mod demodulation_tests;
#[cfg(test)]
mod ends;
#[cfg(test)]
mod receiver_tests;
#[cfg(test)]
mod samples;
#[cfg(test)]
mod send_tests;

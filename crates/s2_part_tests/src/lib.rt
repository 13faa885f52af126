//! Tests of the parts of both ends, of codes, decoders and certificates, over public calls alone: memory that is refused,
//! calls that no command makes, and failed calls. What a command shows is tested by scripts (`docs/working.md`).
//!
//! Most modules test a crate. Several of them share `again` (matrices, and other calls that are
//! made again after memory was refused) and `values` (soft values).
#![tactic(auto)]

#[cfg(test)]
mod again;
#[cfg(test)]
mod bbframe_memory_tests;
#[cfg(test)]
mod bch_memory_tests;
#[cfg(test)]
mod certificate_bytes;
#[cfg(test)]
mod check_tests;
#[cfg(test)]
mod judge_memory_tests;
#[cfg(test)]
mod matrix_tests;
#[cfg(test)]
mod minsum_memory_tests;
#[cfg(test)]
mod mode_tests;
#[cfg(test)]
mod progress_tests;
#[cfg(test)]
mod record_tests;
#[cfg(test)]
mod split_memory_tests;
#[cfg(test)]
mod values;

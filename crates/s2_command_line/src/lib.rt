//! The command line of the program: arguments in, a [`Request`](s2_words::Request) out.
//!
//! [`parse_arguments`] returns the request with all options. Or it returns why there is none: help or the version is requested,
//! or memory ran out, or there is a usage error, reported by one line.
//!
//! ```text
//! match parse_arguments(alloc, &words)? {
//!     Request::Check(CheckArguments { rows, certificate }) => ..
//! }
//! ```
#![tactic(auto)]

mod decibels;
mod given;
mod invalid;
mod reading;
mod roll_off;

pub use reading::parse_arguments;

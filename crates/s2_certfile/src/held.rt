//! The split that the contents of a file hold.

use crate::step::Move;

/// A split of the soft values over the checks.
#[derive(Drop)]
pub enum Held {
    /// A share for each edge: check by check, bits rising.
    Listed(Vec<i32>),
    /// A move for each check.
    Moved(Vec<Move>),
}

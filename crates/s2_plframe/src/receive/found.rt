//! The results of a search.

/// What the last 90 symbols are.
#[derive(Clone, Copy, Debug, PartialEq, Eq)]
pub enum Found {
    /// No header, or fewer than 90 symbols came.
    Nothing,
    /// The header of a frame of the configured mode.
    Coded,
    /// The header of a dummy frame.
    Dummy,
}

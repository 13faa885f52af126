//! Limits of records.

/// The most bytes of a certificate in a record.
pub const MAX_CERTIFICATE: usize = 16_777_216;

/// The number of bytes before the decided bits of a record.
pub(crate) const FRONT_BYTES: usize = 25;

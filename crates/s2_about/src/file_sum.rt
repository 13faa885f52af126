//! The SHA-256 and the number of the bytes that a file gave or took.
ghost use Rattle.std.specs.Prelude.{◌≡◌, ℕ, List, [], ◌++◌};
ghost use Rattle.sha2.specs.Sha256.{sha256};
ghost use Rattle.s2_about.specs.FileSums.{HoldsBytes};

use sha2::{Digest, Sha256};

/// The bytes that passed, as their SHA-256 and their number.
#[derive(Drop)]
pub struct FileSum {
    hasher: Sha256,
    bytes: u64,
}

impl FileSum {
    /// No byte has passed.
    pub fn new() -> FileSum
        ensures { HoldsBytes result [] }
    {
        FileSum {
            hasher: Sha256::new(),
            bytes: 0,
        }
    }

    /// These bytes pass.
    pub fn pass(&mut self, bytes: &[u8])
        ensures { (before : List ℕ) → HoldsBytes self.old before → HoldsBytes self.new (before ++ bytes.now) }
    {
        self.hasher.update(bytes);
        self.bytes = self.bytes.saturating_add(bytes.len() as u64);
    }

    /// How many bytes passed.
    pub fn bytes(&self) -> u64 {
        self.bytes
    }

    /// The SHA-256 of all bytes that passed.
    pub fn digest(self) -> [u8; 32]
        ensures { (bytes : List ℕ) → HoldsBytes self bytes → result ≡ sha256 bytes }
    {
        let FileSum { hasher, bytes: _ } = self;
        hasher.finalize()
    }
}

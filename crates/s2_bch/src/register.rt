//! The division register.
ghost use Rattle.std.specs.Prelude.{◌≡◌, ◌↔◌, ◌+◌, ◌*◌, ◌/◌, ◌%◌, ◌^◌, ◌<◌, ◌≤◌, ℕ, List, Bool, bit_xor, length, IsTrue};
ghost use Rattle.s2_field.specs.Binary.{times_x};
ghost use Rattle.s2_bits.specs.Bits.{number};
ghost use Rattle.s2_bch.specs.Registers.{value_of, Holds};

/// A register of 192 bits, in three blocks of 64. Fewer bits are at the top, followed by zeros, so
/// that all generators are divided by in the same way.
#[derive(Clone, Copy, Drop)]
pub(crate) struct Register {
    pub(crate) high: u64,
    pub(crate) middle: u64,
    pub(crate) low: u64,
}

impl Register {
    /// All bits one place up: the highest falls out.
    fn doubled(self) -> Register
        ensures { value_of result ≡ value_of self * 2 % 2 ^ 192 }
    {
        Register {
            high: (self.high << 1) + (self.middle >> 63),
            middle: (self.middle << 1) + (self.low >> 63),
            low: self.low << 1,
        }
    }

    /// All bits eight places up: the eight highest fall out.
    pub(crate) fn up_a_byte(self) -> Register
        ensures { value_of result ≡ value_of self * 2 ^ 8 % 2 ^ 192 }
    {
        Register {
            high: (self.high << 8) + (self.middle >> 56),
            middle: (self.middle << 8) + (self.low >> 56),
            low: self.low << 8,
        }
    }

    /// All bits 64 places up: the highest 64 fall out.
    pub(crate) fn up_a_block(self) -> Register
        ensures { value_of result ≡ value_of self * 2 ^ 64 % 2 ^ 192 }
    {
        Register {
            high: self.middle,
            middle: self.low,
            low: 0,
        }
    }

    /// All bits one place down, below a new one: the lowest falls out.
    fn below(self, top: bool) -> Register
        ensures { value_of result ≡ number top * 2 ^ 191 + value_of self / 2 }
    {
        Register {
            high: (u64::from(top) << 63) + (self.high >> 1),
            middle: (self.high << 63) + (self.middle >> 1),
            low: (self.middle << 63) + (self.low >> 1),
        }
    }

    /// The highest bit.
    fn top(self) -> bool
        ensures { number result ≡ value_of self / 2 ^ 191 }
    {
        self.high >> 63 == 1
    }

    /// The sum, bit by bit.
    pub(crate) fn plus(self, other: Register) -> Register
        ensures { value_of result ≡ bit_xor (value_of self) (value_of other) }
    {
        Register {
            high: self.high ^ other.high,
            middle: self.middle ^ other.middle,
            low: self.low ^ other.low,
        }
    }

    /// Whether all bits are zero.
    pub(crate) fn is_zero(self) -> bool
        ensures { IsTrue result ↔ (value_of self ≡ 0) }
    {
        self.high == 0 && self.middle == 0 && self.low == 0
    }

    /// One step of the division by x^192 + `tail`.
    pub(crate) fn step(self, tail: Register) -> Register
        ensures { value_of result ≡ times_x 192 (value_of tail) (value_of self) }
    {
        if self.top() {
            self.doubled().plus(tail)
        } else {
            self.doubled()
        }
    }

    /// The register that holds these bits.
    pub(crate) fn read(bits: &[bool]) -> Register
        requires { length bits.now ≤ 192 }
        ensures { Holds result bits.now }
    {
        let mut register = Register {
            high: 0,
            middle: 0,
            low: 0,
        };
        for i in 0..bits.len() {
            register = register.below(bits[bits.len() - 1 - i]);
        }
        register
    }

    /// Writes the bits that the register holds.
    pub(crate) fn write(self, bits: &mut [bool])
        requires { length bits.old ≤ 192 }
        ensures { (w : List Bool) → length w ≡ length bits.old → Holds self w → bits.new ≡ w }
    {
        let mut rest = self;
        for bit in bits.iter_mut() {
            *bit = rest.top();
            rest = rest.doubled();
        }
    }
}

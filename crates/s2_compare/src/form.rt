//! The forms of a device's words.
ghost use Rattle.std.specs.Prelude.{◌≡◌, ◌+◌, ◌≤◌};
ghost use Rattle.s2_mode.specs.Limits.{max_bits};
ghost use Rattle.s2_compare.specs.Devices.{record_size, shape_for};

use s2_mode::{Mode, Shape};

/// How a file has the words of a device, and the code that they are for. The file has one record for each frame.
#[derive(Clone, Copy, Debug)]
pub enum Form {
    /// The n bits of a codeword of this shape, eight to a byte, the first the highest.
    Bytes(Shape),
    /// The n bits of a codeword of this shape as a line of digits 0 and 1.
    Digits(Shape),
    /// The BBFRAME of this mode, Kbch / 8 bytes, before scrambling. Zeros say that nothing was delivered.
    Bbframes(Mode),
}

impl Form {
    /// The shape of the code.
    pub fn shape(&self) -> Shape
        ensures { result ≡ shape_for self.now }
    {
        match self {
            Form::Bytes(shape) | Form::Digits(shape) => *shape,
            Form::Bbframes(mode) => mode.shape(),
        }
    }

    /// How many bytes a record has.
    pub(crate) fn record_size(&self) -> usize
        ensures is { result ≡ record_size self.now }
        ensures few { result ≤ max_bits + 1 }
    {
        match self {
            Form::Bytes(shape) => (shape.n() + 7) / 8,
            Form::Digits(shape) => shape.n() + 1,
            Form::Bbframes(mode) => mode.kbch() / 8,
        }
    }
}

//! Why a call is refused, and the number of its result.
ghost use Rattle.std.specs.Prelude.{◌≡◌, Err};
ghost use Rattle.s2_library.specs.Results.{answer_of, refusal_number, number_of};

/// Why a call is refused.
#[derive(Clone, Copy, Debug, PartialEq, Eq)]
pub enum Refusal {
    /// Memory was refused.
    NoMemory,
    /// The handle is empty or ended.
    Empty,
    /// The handle is of another kind.
    OtherKind,
    /// The handle that is to be filled is not empty.
    InUse,
    /// The size in a struct is not that of the struct.
    BadSize,
    /// There is no such mode.
    BadMode,
    /// There is no such shape of a code.
    BadShape,
    /// The text is no row file of the shape.
    BadRows,
    /// The code is not of the mode's shape.
    OtherShape,
    /// The scrambling number is over 262141.
    BadScrambling,
    /// The roll-off is over 2.
    BadRollOff,
    /// A number of the tuning is out of its range.
    BadTuning,
    /// A member for 0 or 1 has another value, a number that is not of the tuning is out of its range, or a reserved
    /// member is not 0.
    BadOption,
    /// More was given than can be taken.
    TooMany,
    /// The buffer is too short.
    TooShort,
    /// A packet does not begin with 47 hexadecimal.
    NoSync,
    /// 1 to 187 bytes are left after the last packet.
    CutPacket,
    /// The stream was closed.
    Closed,
    /// The limit of packets is reached.
    Full,
    /// Soft values in another number than n, or one that is not -511 to 511.
    BadSoft,
    /// The bytes are no certificate file.
    BadCertificate,
    /// There is none at this place, or none of this frame.
    NoneThere,
}

impl Refusal {
    /// The number of the refusal for C: -1 to -22.
    pub fn number(self) -> i32
        ensures is { result ≡ refusal_number self }
        ensures back { answer_of result ≡ Err self }
    {
        match self {
            Refusal::NoMemory => -1,
            Refusal::Empty => -2,
            Refusal::OtherKind => -3,
            Refusal::InUse => -4,
            Refusal::BadSize => -5,
            Refusal::BadMode => -6,
            Refusal::BadShape => -7,
            Refusal::BadRows => -8,
            Refusal::OtherShape => -9,
            Refusal::BadScrambling => -10,
            Refusal::BadRollOff => -11,
            Refusal::BadTuning => -12,
            Refusal::BadOption => -13,
            Refusal::TooMany => -14,
            Refusal::TooShort => -15,
            Refusal::NoSync => -16,
            Refusal::CutPacket => -17,
            Refusal::Closed => -18,
            Refusal::Full => -19,
            Refusal::BadSoft => -20,
            Refusal::BadCertificate => -21,
            Refusal::NoneThere => -22,
        }
    }
}

/// The number of a result for C: 0, or that of its refusal.
pub fn result_number(answer: Result<(), Refusal>) -> i32
    ensures is { result ≡ number_of answer }
    ensures back { answer_of result ≡ answer }
{
    match answer {
        Ok(()) => 0,
        Err(refusal) => refusal.number(),
    }
}

//! The numbers of a line.

/// Which of a command's bytes are packets, and which are symbols. `frame` is the number of symbols of a frame.
#[derive(Clone, Copy, Debug, PartialEq, Eq)]
pub enum Pace {
    /// Packets come in, symbols go out.
    Sending { frame: u64 },
    /// Symbols come in, packets go out.
    Receiving { frame: u64 },
    /// Symbols come in, and go out with noise.
    AddingNoise,
    /// Symbols come in.
    Scanning,
    /// Packets are read. After the last one they are written, once per run.
    Looping { runs: u64 },
}

/// The bytes that were taken and given so far, the time in milliseconds, and the bytes to be taken in all, if that is
/// known.
#[derive(Clone, Copy, Debug, PartialEq, Eq)]
pub struct Passed {
    pub taken: u64,
    pub given: u64,
    pub millis: u64,
    pub length: Option<u64>,
}

/// The numbers of a line: frames, packets, tenths of a megabyte, symbols per second, percent done, and seconds left. A
/// number over 2^64 - 1 is capped to that.
#[derive(Clone, Copy, Debug, PartialEq, Eq)]
pub struct Numbers {
    pub frames: Option<u64>,
    pub packets: Option<u64>,
    pub tenths: u64,
    pub rate: Option<u64>,
    pub share: Option<u64>,
    pub left: Option<u64>,
}

const PACKET_BYTES: u64 = 188;

const SYMBOL_BYTES: u64 = 4;

/// The number, or the largest that there is.
pub(crate) fn capped(number: u128) -> u64 {
    number.min(u64::MAX as u128) as u64
}

/// The product of `number` and `many`, divided by `per`. `None` if `per` is 0.
fn ratio(number: u64, many: u64, per: u64) -> Option<u64> {
    if per == 0 {
        return None;
    }
    Some(capped(number as u128 * many as u128 / per as u128))
}

/// The symbols that have passed.
fn symbols_of(pace: Pace, passed: Passed) -> Option<u64> {
    match pace {
        Pace::Sending { frame: _ } => Some(passed.given / SYMBOL_BYTES),
        Pace::Receiving { frame: _ } | Pace::AddingNoise | Pace::Scanning => {
            Some(passed.taken / SYMBOL_BYTES)
        }
        Pace::Looping { runs: _ } => None,
    }
}

/// The packets that have passed. In a loop, they are the packets that came back, as soon as there are any.
fn packets_of(pace: Pace, passed: Passed) -> Option<u64> {
    match pace {
        Pace::Sending { frame: _ } => Some(passed.taken / PACKET_BYTES),
        Pace::Receiving { frame: _ } => Some(passed.given / PACKET_BYTES),
        Pace::AddingNoise | Pace::Scanning => None,
        Pace::Looping { runs: _ } if passed.given == 0 => Some(passed.taken / PACKET_BYTES),
        Pace::Looping { runs: _ } => Some(passed.given / PACKET_BYTES),
    }
}

/// The frames that have passed.
fn frames_of(pace: Pace, passed: Passed) -> Option<u64> {
    match pace {
        Pace::Sending { frame } => ratio(passed.given / SYMBOL_BYTES, 1, frame),
        Pace::Receiving { frame } => ratio(passed.taken / SYMBOL_BYTES, 1, frame),
        Pace::AddingNoise | Pace::Scanning | Pace::Looping { runs: _ } => None,
    }
}

/// The number of bytes processed: those that were read, and in a loop also those that were written.
fn done_of(pace: Pace, passed: Passed) -> u64 {
    match pace {
        Pace::Looping { runs: _ } => passed.taken.saturating_add(passed.given),
        _ => passed.taken,
    }
}

/// The number of bytes to process, for an input of this length.
fn whole_of(pace: Pace, length: u64) -> u64 {
    match pace {
        Pace::Looping { runs } => length.saturating_mul(runs.saturating_add(1)),
        _ => length,
    }
}

/// The percentage that is done, at most 100.
fn share_of(pace: Pace, passed: Passed) -> Option<u64> {
    let whole = whole_of(pace, passed.length?);
    let share = ratio(done_of(pace, passed), 100, whole)?;
    Some(share.min(100))
}

/// The seconds that are left, at the pace so far.
fn left_of(pace: Pace, passed: Passed) -> Option<u64> {
    let whole = whole_of(pace, passed.length?);
    let done = done_of(pace, passed);
    let millis = ratio(whole.saturating_sub(done), passed.millis, done)?;
    Some(millis / 1000)
}

/// The tenths of a megabyte that were taken and given.
fn tenths_of(passed: Passed) -> u64 {
    capped((passed.taken as u128 + passed.given as u128) / 100_000)
}

/// The numbers of the line after these bytes and this time.
pub fn numbers_at(pace: Pace, passed: Passed) -> Numbers {
    Numbers {
        frames: frames_of(pace, passed),
        packets: packets_of(pace, passed),
        tenths: tenths_of(passed),
        rate: match symbols_of(pace, passed) {
            Some(symbols) => ratio(symbols, 1000, passed.millis),
            None => None,
        },
        share: share_of(pace, passed),
        left: left_of(pace, passed),
    }
}

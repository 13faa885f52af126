//! The MODCODs (EN 302 307-1, tables 12 and 13).

/// A constellation (EN 302 307-1, 5.4.1 and 5.4.2).
#[derive(Clone, Copy, Debug, PartialEq, Eq)]
pub enum Modulation {
    /// Four points, two bits to a symbol.
    Qpsk,
    /// Eight points, three bits to a symbol.
    Psk8,
}

/// The line of a MODCOD.
#[derive(Clone, Copy)]
pub(crate) struct Modcod {
    pub(crate) modulation: Modulation,
    /// The place of its code rate in [`crate::rates::RATES`].
    pub(crate) rate_index: usize,
    /// The Es/N0 at which quasi error free reception begins over a channel with noise alone, in hundredths of a dB.
    pub(crate) ideal: i16,
}

/// MODCOD 1 to 17.
pub(crate) const MODCODS: [Modcod; 17] = [
    // QPSK 1/4
    Modcod {
        modulation: Modulation::Qpsk,
        rate_index: 0,
        ideal: -235,
    },
    // QPSK 1/3
    Modcod {
        modulation: Modulation::Qpsk,
        rate_index: 1,
        ideal: -124,
    },
    // QPSK 2/5
    Modcod {
        modulation: Modulation::Qpsk,
        rate_index: 2,
        ideal: -30,
    },
    // QPSK 1/2
    Modcod {
        modulation: Modulation::Qpsk,
        rate_index: 3,
        ideal: 100,
    },
    // QPSK 3/5
    Modcod {
        modulation: Modulation::Qpsk,
        rate_index: 4,
        ideal: 223,
    },
    // QPSK 2/3
    Modcod {
        modulation: Modulation::Qpsk,
        rate_index: 5,
        ideal: 310,
    },
    // QPSK 3/4
    Modcod {
        modulation: Modulation::Qpsk,
        rate_index: 6,
        ideal: 403,
    },
    // QPSK 4/5
    Modcod {
        modulation: Modulation::Qpsk,
        rate_index: 7,
        ideal: 468,
    },
    // QPSK 5/6
    Modcod {
        modulation: Modulation::Qpsk,
        rate_index: 8,
        ideal: 518,
    },
    // QPSK 8/9
    Modcod {
        modulation: Modulation::Qpsk,
        rate_index: 9,
        ideal: 620,
    },
    // QPSK 9/10
    Modcod {
        modulation: Modulation::Qpsk,
        rate_index: 10,
        ideal: 642,
    },
    // 8PSK 3/5
    Modcod {
        modulation: Modulation::Psk8,
        rate_index: 4,
        ideal: 550,
    },
    // 8PSK 2/3
    Modcod {
        modulation: Modulation::Psk8,
        rate_index: 5,
        ideal: 662,
    },
    // 8PSK 3/4
    Modcod {
        modulation: Modulation::Psk8,
        rate_index: 6,
        ideal: 791,
    },
    // 8PSK 5/6
    Modcod {
        modulation: Modulation::Psk8,
        rate_index: 8,
        ideal: 935,
    },
    // 8PSK 8/9
    Modcod {
        modulation: Modulation::Psk8,
        rate_index: 9,
        ideal: 1069,
    },
    // 8PSK 9/10
    Modcod {
        modulation: Modulation::Psk8,
        rate_index: 10,
        ideal: 1098,
    },
];

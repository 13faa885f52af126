//! The code rates (EN 302 307-1, tables 5a and 5b).
ghost use Rattle.std.specs.Prelude.{◌≡◌, ◌<◌, [], get_or, map};
ghost use Rattle.s2_mode.specs.Table.{no_sizes};

/// The sizes of the codes of a code rate.
#[derive(Clone, Copy)]
pub(crate) struct Sizes {
    /// Kbch of normal frames.
    pub(crate) kbch: usize,
    /// k, which is Nbch too, of normal frames.
    pub(crate) k: usize,
    /// How many errors the BCH code of normal frames corrects.
    pub(crate) t: usize,
    /// Kbch of short frames.
    pub(crate) short_kbch: usize,
    /// k of short frames.
    pub(crate) short_k: usize,
}

/// A code rate.
#[derive(Clone, Copy)]
pub(crate) struct CodeRate {
    /// As it is written.
    pub(crate) text: &'static str,
    pub(crate) sizes: Sizes,
}

/// The code rates; the last has no short frames.
pub(crate) const RATES: [CodeRate; 11] = [
    CodeRate {
        text: "1/4",
        sizes: Sizes {
            kbch: 16008,
            k: 16200,
            t: 12,
            short_kbch: 3072,
            short_k: 3240,
        },
    },
    CodeRate {
        text: "1/3",
        sizes: Sizes {
            kbch: 21408,
            k: 21600,
            t: 12,
            short_kbch: 5232,
            short_k: 5400,
        },
    },
    CodeRate {
        text: "2/5",
        sizes: Sizes {
            kbch: 25728,
            k: 25920,
            t: 12,
            short_kbch: 6312,
            short_k: 6480,
        },
    },
    CodeRate {
        text: "1/2",
        sizes: Sizes {
            kbch: 32208,
            k: 32400,
            t: 12,
            short_kbch: 7032,
            short_k: 7200,
        },
    },
    CodeRate {
        text: "3/5",
        sizes: Sizes {
            kbch: 38688,
            k: 38880,
            t: 12,
            short_kbch: 9552,
            short_k: 9720,
        },
    },
    CodeRate {
        text: "2/3",
        sizes: Sizes {
            kbch: 43040,
            k: 43200,
            t: 10,
            short_kbch: 10632,
            short_k: 10800,
        },
    },
    CodeRate {
        text: "3/4",
        sizes: Sizes {
            kbch: 48408,
            k: 48600,
            t: 12,
            short_kbch: 11712,
            short_k: 11880,
        },
    },
    CodeRate {
        text: "4/5",
        sizes: Sizes {
            kbch: 51648,
            k: 51840,
            t: 12,
            short_kbch: 12432,
            short_k: 12600,
        },
    },
    CodeRate {
        text: "5/6",
        sizes: Sizes {
            kbch: 53840,
            k: 54000,
            t: 10,
            short_kbch: 13152,
            short_k: 13320,
        },
    },
    CodeRate {
        text: "8/9",
        sizes: Sizes {
            kbch: 57472,
            k: 57600,
            t: 8,
            short_kbch: 14232,
            short_k: 14400,
        },
    },
    CodeRate {
        text: "9/10",
        sizes: Sizes {
            kbch: 58192,
            k: 58320,
            t: 8,
            short_kbch: 0,
            short_k: 0,
        },
    },
];

/// A line of the table.
pub(crate) fn line_at(lines: &[CodeRate; 11], at: usize) -> CodeRate
    requires { at < 11 }
    ensures text { result.text.now ≡ get_or (map (λ line. line.text.now) lines.now) at [] }
    ensures sizes { result.sizes ≡ get_or (map (λ line. line.sizes) lines.now) at no_sizes }
{
    lines[at]
}

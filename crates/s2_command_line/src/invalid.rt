//! Invalid values of the options for which the parser accepts any text.
use crate::decibels::read_esn0;
use crate::given::Given;
use crate::roll_off::read_roll_off;
use s2_mode::{MAX_MODCOD, Mode, Modulation};
use s2_names::{Case, SymbolRate, constellation};
use s2_usage::{Refused, Unread, refused_value};
use s2_words::{read_modcod, read_piece, read_seeds};
use std::alloc::{AllocError, Global};

/// Appends the names of all modes of a constellation to a text.
fn push_modes(text: &mut String, modulation: Modulation) -> Result<(), AllocError> {
    let mut between = "";
    for modcod in 1..=MAX_MODCOD {
        if let Some(mode) = Mode::of(modcod, false, false) {
            if mode.modulation() == modulation {
                text.push_str(between)?;
                text.push_str(constellation(&mode, Case::Small))?;
                text.push_str(mode.code_rate())?;
                between = ", ";
            }
        }
    }
    Ok(())
}

/// Appends the accepted modes: those of the constellation with which the name begins, if it does.
fn push_accepted_modes(text: &mut String, name: &str) -> Result<(), AllocError> {
    if begins_with(name, "qpsk", "QPSK") {
        text.push_str("a mode: QPSK has ")?;
        push_modes(text, Modulation::Qpsk)
    } else if begins_with(name, "8psk", "8PSK") {
        text.push_str("a mode: 8PSK has ")?;
        push_modes(text, Modulation::Psk8)
    } else {
        text.push_str("1 to 17 or the name of a mode")
    }
}

fn begins_with(name: &str, small: &str, capital: &str) -> bool {
    name.starts_with(small) || name.starts_with(capital)
}

/// The usage error of an invalid MODCOD.
fn refused_mode(alloc: Global, value: &str) -> Result<Unread, AllocError> {
    let mut accepted = String::new(alloc);
    push_accepted_modes(&mut accepted, value)?;
    let refused = Refused {
        option: "--modcod",
        value,
        accepted: accepted.as_str(),
    };
    refused_value(alloc, refused, &["modes"])
}

/// The value of `--modcod`, if it is given and invalid.
fn refused_modcod<'a, G: Given<'a>>(given: &G) -> Option<&'a str> {
    let value = given.text("modcod")?;
    if read_modcod(value).is_some() {
        return None;
    }
    Some(value)
}

/// The value of `--ro`, if it is given and invalid.
fn refused_roll_off<'a, G: Given<'a>>(given: &G) -> Option<Refused<'a>> {
    let value = given.text("ro")?;
    if read_roll_off(value).is_some() {
        return None;
    }
    Some(Refused {
        value,
        option: "--ro",
        accepted: "0 for 0.35, 1 for 0.25 or 2 for 0.20",
    })
}

/// The value of `--esn0`, if it is given and invalid.
fn refused_esn0<'a, G: Given<'a>>(given: &G) -> Option<Refused<'a>> {
    let value = given.text("esn0")?;
    if read_esn0(value).is_some() {
        return None;
    }
    Some(Refused {
        value,
        option: "--esn0",
        accepted: "-10 to 40, with at most two decimals",
    })
}

/// The value of `--seeds`, if it is given and invalid.
fn refused_seeds<'a, G: Given<'a>>(given: &G) -> Option<Refused<'a>> {
    let value = given.text("seeds")?;
    if read_seeds(value).is_some() {
        return None;
    }
    Some(Refused {
        value,
        option: "--seeds",
        accepted: "two unsigned 64-bit numbers with two dots between them, the first at most the second, for example 1..100",
    })
}

/// The value of `--piece`, if it is given and invalid.
fn refused_piece<'a, G: Given<'a>>(given: &G) -> Option<Refused<'a>> {
    let value = given.text("piece")?;
    if read_piece(value, false).is_some() {
        return None;
    }
    Some(Refused {
        value,
        option: "--piece",
        accepted: "two positions with two dots between them, the first at most the second, for example 0..1000000",
    })
}

/// The value of `--rate`, if it is given and invalid.
fn refused_rate<'a, G: Given<'a>>(given: &G) -> Option<Refused<'a>> {
    let value = given.text("rate")?;
    if SymbolRate::read(value).is_some() {
        return None;
    }
    Some(Refused {
        value,
        option: "--rate",
        accepted: "a whole number, 1 to 1000000000, also as 27.5M, 27.5e6 or 27500k",
    })
}

/// The first invalid value of the options for which the parser accepts any text, apart from `--modcod`.
fn refused_in<'a, G: Given<'a>>(given: &G) -> Option<Refused<'a>> {
    refused_roll_off(given)
        .or(refused_esn0(given))
        .or(refused_seeds(given))
        .or(refused_piece(given))
        .or(refused_rate(given))
}

/// Nothing, or the usage error of the first invalid value of a command.
pub(crate) fn check_values<'a, G: Given<'a>>(
    alloc: Global,
    name: &str,
    given: &G,
) -> Result<(), Unread> {
    if let Some(value) = refused_modcod(given) {
        return Err(refused_mode(alloc, value)?);
    }
    match refused_in(given) {
        Some(refused) => Err(refused_value(alloc, refused, &[name, " --help"])?),
        None => Ok(()),
    }
}

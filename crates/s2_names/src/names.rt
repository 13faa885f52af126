//! The names of modes.
ghost use Rattle.std.specs.Prelude.{◌≡◌, ◌↔◌, ◌++◌, false, IsTrue, IsSome, IfSome};
ghost use Rattle.s2_mode.specs.Mode.{IsMode, mode_of, modulation_of};
ghost use Rattle.s2_names.specs.Names.{constellation_text, name_of, IsNameOf, IsName};

use s2_mode::{MAX_MODCOD, Mode, Modulation};

/// In which letters a constellation is written.
#[derive(Clone, Copy, Debug, PartialEq, Eq)]
pub enum Case {
    Small,
    Capital,
}

/// The constellation of a mode: `qpsk` or `8psk`, or `QPSK` or `8PSK`.
pub fn constellation(mode: &Mode, case: Case) -> &'static str
    ensures { result.now ≡ constellation_text (modulation_of mode.now) case }
{
    match (case, mode.modulation()) {
        (Case::Small, Modulation::Qpsk) => "qpsk",
        (Case::Small, Modulation::Psk8) => "8psk",
        (Case::Capital, Modulation::Qpsk) => "QPSK",
        (Case::Capital, Modulation::Psk8) => "8PSK",
    }
}

/// Whether bytes are these two parts.
fn is_joined(bytes: &[u8], front: &[u8], back: &[u8]) -> bool
    ensures { IsTrue result ↔ (bytes.now ≡ front.now ++ back.now) }
{
    match bytes.strip_prefix(front) {
        Some(rest) => rest == back,
        None => false,
    }
}

/// Whether a name is that of a mode.
fn is_named(mode: &Mode, case: Case, name: &[u8]) -> bool
    ensures { IsTrue result ↔ (name.now ≡ name_of mode.now case) }
{
    let front = constellation(mode, case);
    is_joined(name, front.as_bytes(), mode.code_rate().as_bytes())
}

/// The MODCOD of a name: a constellation, all in small letters or all in capitals, and a code rate. `None` if no mode
/// has this name.
pub fn modcod_of(name: &str) -> Option<u8>
    ensures found { IsSome result ↔ IsName name.now }
    ensures value { IfSome result
        (λ modcod. IsMode (mode_of modcod false false) × IsNameOf (mode_of modcod false false) name.now) }
{
    for modcod in 1..=MAX_MODCOD {
        if let Some(mode) = Mode::of(modcod, false, false) {
            if is_named(&mode, Case::Small, name.as_bytes())
                || is_named(&mode, Case::Capital, name.as_bytes())
            {
                return Some(modcod);
            }
        }
    }
    None
}

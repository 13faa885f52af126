//! The code of a mode, in words.
ghost use Rattle.std.specs.Prelude.{◌≡◌, codes, if◌then◌else◌, OnOk};
ghost use Rattle.std.specs.Io.KnownBytes.{Appends};
ghost use Rattle.s2_mode.specs.Counts.{CanCount, CountsFault};
ghost use Rattle.s2_names.specs.Names.{mode_words};

use crate::names::{Case, constellation};
use s2_mode::{CountedWrite, Mode, WriteFault, write_full};

/// The words of a frame's length, after a code rate.
fn length_behind(mode: &Mode) -> &'static str
    ensures { result.now ≡ (if mode.now.short then codes ", short" else codes ", normal") }
{
    if mode.is_short() {
        ", short"
    } else {
        ", normal"
    }
}

/// Writes the code of a mode in words, as `QPSK 3/4, normal`. It returns a fault only if a write failed.
pub fn write_code<W: CountedWrite>(out: &mut W, mode: &Mode) -> Result<(), WriteFault>
    requires { CanCount (W.count out.old) }
    ensures words { OnOk result (Appends (W.contents out.old) (W.contents out.new) (mode_words mode.now)) }
    ensures cause { CountsFault (W.count out.old) (W.count out.new) result }
{
    write_full(out, constellation(mode, Case::Capital).as_bytes())?;
    write_full(out, " ".as_bytes())?;
    write_full(out, mode.code_rate().as_bytes())?;
    write_full(out, length_behind(mode).as_bytes())
}

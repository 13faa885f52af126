//! The numbers of a mode.
ghost use Rattle.std.specs.Prelude.{◌≡◌};
ghost use Rattle.s2_library.specs.Fields.{mode_fields};
ghost use Rattle.s2_library.specs.Refusals.{GivesMode};

use crate::options::mode_of_numbers;
use crate::refusal::Refusal;
use s2_mode::Mode;

/// The size of [`ModeFields`] in bytes.
const SIZE: u32 = 64;

/// The numbers of a mode, as C has them.
#[repr(C)]
#[derive(Clone, Copy)]
pub struct ModeFields {
    pub size: u32,
    pub n: u32,
    pub k: u32,
    pub kbch: u32,
    pub bits: u32,
    pub symbols: u32,
    pub group: u32,
    pub groups: u32,
    pub q: u32,
    pub reserved: [u32; 7],
}

/// The numbers of a mode.
#[tactic(auto, unfolding(s2_mode::specs::Mode::width_of))]
fn fields_of(mode: Mode) -> ModeFields
    ensures { result ≡ mode_fields mode }
{
    let shape = mode.shape();
    ModeFields {
        size: SIZE,
        n: mode.n() as u32,
        k: mode.k() as u32,
        kbch: mode.kbch() as u32,
        bits: if mode.is_qpsk() { 2 } else { 3 },
        symbols: mode.symbols() as u32,
        group: shape.group() as u32,
        groups: shape.groups() as u32,
        q: shape.q() as u32,
        reserved: [0; 7],
    }
}

/// The numbers of a mode. The struct is unchanged if it is refused.
pub fn mode_fields(
    modcod: u32,
    is_short: u32,
    has_pilots: u32,
    fields: &mut ModeFields,
) -> Result<(), Refusal>
    ensures { GivesMode modcod is_short has_pilots fields.old fields.new result }
{
    if fields.size != SIZE {
        return Err(Refusal::BadSize);
    }
    let mode = mode_of_numbers(modcod, is_short, has_pilots)?;
    *fields = fields_of(mode);
    Ok(())
}

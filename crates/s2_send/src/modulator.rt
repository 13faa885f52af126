//! From a codeword to the bytes of its frame's symbols (EN 302 307-1, 5.3.3 to 5.5).
ghost use Rattle.std.specs.Prelude.{◌≡◌, ◌+◌, ◌*◌, ◌≤◌, [], ◌++◌, drop, length, take, if◌then◌else◌, IfOk};
ghost use Rattle.s2_mode.specs.Limits.{dummy_symbols};
ghost use Rattle.s2_mode.specs.Mode.{n_of, symbols_in};
ghost use Rattle.s2_mode.specs.Symbols.{bytes_of_symbols};
ghost use Rattle.s2_send.specs.Frames.{dummy_bytes, frame_bytes};

use s2_bits::Bits;
use s2_map::map_into;
use s2_mode::{DUMMY_SYMBOLS, Mode, Symbol, bytes_into};
use s2_plframe::{dummy_into, frame_into};
use s2_scramble::Gold;
use std::alloc::{AllocError, Global};
use std::marker::Model;

/// Writes the bytes of a dummy frame.
fn dummy_bytes_into(gold: &Gold, symbols: &mut [Symbol], bytes: &mut [u8])
    requires symbols { length symbols.old ≡ dummy_symbols }
    requires bytes { length bytes.old ≡ 4 * dummy_symbols }
    ensures is { bytes.new ≡ dummy_bytes gold.now }
    ensures size { length bytes.new ≡ 4 * dummy_symbols }
{
    dummy_into(gold, symbols);
    bytes_into(symbols, bytes);
}

/// Writes the bytes of a dummy frame behind the first bytes of a buffer.
fn dummy_behind(gold: &Gold, symbols: &mut [Symbol], frame: usize, bytes: &mut [u8])
    requires symbols { length symbols.old ≡ dummy_symbols }
    requires bytes { length bytes.old ≡ frame + 4 * dummy_symbols }
    ensures is { drop frame bytes.new ≡ dummy_bytes gold.now }
{
    let (_front, behind) = bytes.split_at_mut(frame);
    dummy_bytes_into(gold, symbols, behind);
}

/// A buffer for the bytes of a frame, before those of a dummy frame.
fn unit_buffer(alloc: Global, mode: Mode, gold: &Gold) -> Result<Vec<u8>, AllocError>
    ensures size { IfOk result (λ bytes. length bytes.items ≡ 4 * symbols_in mode + 4 * dummy_symbols) }
    ensures dummy { IfOk result (λ bytes. drop (4 * symbols_in mode) bytes.items ≡ dummy_bytes gold.now) }
{
    let frame = 4 * mode.symbols();
    let mut symbols = vec![in alloc; Symbol { i: 0, q: 0 }; DUMMY_SYMBOLS]?;
    let mut bytes = vec![in alloc; 0u8; frame + 4 * DUMMY_SYMBOLS]?;
    dummy_behind(gold, &mut symbols, frame, &mut bytes);
    Ok(bytes)
}

/// Writes the bytes of symbols at the front of a buffer.
fn bytes_in_front(symbols: &[Symbol], bytes: &mut [u8])
    requires { 4 * length symbols.now ≤ length bytes.old }
    ensures front { take (4 * length symbols.now) bytes.new ≡ bytes_of_symbols symbols.now }
    ensures behind { drop (4 * length symbols.now) bytes.new ≡ drop (4 * length symbols.now) bytes.old }
{
    let (front, _behind) = bytes.split_at_mut(4 * symbols.len());
    bytes_into(symbols, front);
}

/// Makes the symbols of codewords, as bytes, in its own buffers, and has those of a dummy frame. Its value is the
/// mode, the scrambling number and the bytes of the last frame.
pub struct Modulator {
    mode: Mode,
    gold: Gold,
    payload: Vec<Symbol>,
    symbols: Vec<Symbol>,
    unit: Vec<u8>,
}

impl Drop for Modulator {
    fn drop(self) {
        let Modulator {
            mode: _,
            gold: _,
            payload: _,
            symbols: _,
            unit: _,
        } = self;
    }
}

impl Model for Modulator {
    ghost use Rattle.std.specs.Prelude.{◌≡◌, ◌+◌, ◌*◌, drop, length, take};
    ghost use Rattle.s2_mode.specs.Mode.{slots_of, symbols_in};
    ghost use Rattle.s2_mode.specs.Limits.{dummy_symbols};
    ghost use Rattle.s2_send.specs.Frames.{Modulation, dummy_bytes};

    ghost Value = { Modulation };

    ghost view = { λ m. record { mode = m.mode; number = m.gold; bytes = take (4 * symbols_in m.mode) m.unit.items } };

    ghost invariant = { λ m. (length m.payload.items ≡ 90 * slots_of m.mode) × (length m.symbols.items ≡ symbols_in m.mode)
        × (length m.unit.items ≡ 4 * symbols_in m.mode + 4 * dummy_symbols)
        × (drop (4 * symbols_in m.mode) m.unit.items ≡ dummy_bytes m.gold) };
}

impl Modulator {
    /// The modulator of a mode and a scrambler. `AllocError` only if it is out of memory.
    pub fn new(alloc: Global, mode: Mode, gold: Gold) -> Result<Modulator, AllocError>
        ensures mode { IfOk result (λ m. m.mode ≡ mode) }
        ensures number { IfOk result (λ m. m.number ≡ gold) }
    {
        let origin = Symbol { i: 0, q: 0 };
        let unit = unit_buffer(alloc, mode, &gold)?;
        Ok(Modulator {
            mode,
            gold,
            payload: vec![in alloc; origin; 90 * mode.slots()]?,
            symbols: vec![in alloc; origin; mode.symbols()]?,
            unit,
        })
    }

    /// Makes the bytes of a codeword's physical layer frame (PLFRAME): header, scrambled payload (XFECFRAME) and pilots.
    /// It takes no memory.
    pub fn modulate(&mut self, codeword: &Bits)
        requires { length codeword.now ≡ n_of self.old.mode }
        ensures { self.new ≡ record self.old { bytes = frame_bytes self.old.mode self.old.number codeword.now } }
    {
        map_into(self.mode, codeword, &mut self.payload);
        frame_into(self.mode, &self.gold, &self.payload, &mut self.symbols);
        bytes_in_front(&self.symbols, &mut self.unit);
    }

    /// The bytes of the last frame.
    pub fn bytes(&self) -> &[u8]
        ensures { result.now ≡ self.now.bytes }
    {
        &self.unit[..4 * self.mode.symbols()]
    }

    /// The bytes of the last frame, and of a dummy frame after it if one is due.
    pub fn unit(&self, due: bool) -> &[u8]
        ensures { result.now ≡ self.now.bytes ++ (if due then dummy_bytes self.now.number else []) }
    {
        if due { &self.unit } else { self.bytes() }
    }
}

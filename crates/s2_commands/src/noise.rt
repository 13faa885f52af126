//! `noise`: adds noise to symbols.
ghost use Rattle.std.specs.Prelude.{◌≡◌, ◌≢◌, false};
ghost use Rattle.s2_mode.specs.Counts.{CanCount};
ghost use Rattle.s2_commands.specs.Links.{Begins};
ghost use Rattle.s2_commands.specs.AddingNoise.{piped_by, AddsNoise, NoiseExits};

use crate::choices::Channel;
use s2_channel::{Noise, add_to_all};
use s2_io::{Console, Destination, Exit, Fault, Output};
use s2_mode::{CountedRead, CountedWrite, StreamFault};

/// Writes the symbols of a reader with noise.
pub(crate) fn add_noise<R: CountedRead, W: CountedWrite>(
    channel: Channel,
    from: &mut R,
    to: &mut W,
) -> Result<Exit, Fault<'static>>
    requires from { CanCount (R.count from.old) }
    requires to { CanCount (W.count to.old) }
    ensures { let ends = piped_by R.remaining R.count W.contents W.count in
        AddsNoise channel (ends from.old to.old) (ends from.new to.new) result }
{
    let mut noise = Noise::of(channel.seed, channel.strength);
    match add_to_all(&mut noise, from, to) {
        Ok(()) => Ok(Exit::Fine),
        Err(StreamFault::Read) => Err(Fault::Read),
        Err(StreamFault::Write) => Err(Fault::Write),
    }
}

/// Truncates the output, and writes the symbols of a reader with noise.
fn add_noise_begun<R: CountedRead, W: Output>(
    channel: Channel,
    from: &mut R,
    to: &mut Destination<W>,
) -> Result<Exit, Fault<'static>>
    requires from { CanCount (R.count from.old) }
    requires to { CanCount (W.count to.old.to) }
    requires unbegun { to.old.begun ≡ false }
    ensures { let ends = piped_by R.remaining R.count W.contents W.count in
        Begins (AddsNoise channel) to.new.begun (ends from.old to.old.to) (ends from.new to.new.to) result }
{
    match to.truncate() {
        Ok(()) => add_noise(channel, from, to.writer()),
        Err(_) => Err(Fault::Write),
    }
}

/// `noise`: writes the symbols of a reader with noise. A seed and a strength, which is a level or an Es/N0, determine
/// the noise. It prints nothing. One to three bytes that are left at the end are dropped.
pub fn noise_command<R: CountedRead, W: Output, O: CountedWrite, E: CountedWrite>(
    channel: Channel,
    from: &mut R,
    to: &mut Destination<W>,
    console: &mut Console<O, E>,
) -> Exit
    requires from { CanCount (R.count from.old) }
    requires to { CanCount (W.count to.old.to) }
    requires unbegun { to.old.begun ≡ false }
    requires errors { CanCount console.old.errors_failed }
    ensures quiet { result ≢ Exit.Fault → console.new.errors_failed ≡ console.old.errors_failed }
    ensures output { console.new.output ≡ console.old.output }
    ensures whole { console.new.output_failed ≡ console.old.output_failed }
    ensures run { let ends = piped_by R.remaining R.count W.contents W.count in NoiseExits channel to.new.begun
        (ends from.old to.old.to) (ends from.new to.new.to) console.old console.new result }
{
    let ended = add_noise_begun(channel, from, to);
    console.finish(ended)
}

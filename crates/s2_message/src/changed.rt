//! The bits in which a decided word differs from the hard decision.
ghost use Rattle.std.specs.Prelude.{◌≡◌, length};
ghost use Rattle.s2_mode.specs.Mode.{n_of};
ghost use Rattle.s2_message.specs.Figures.{changed_bits};

use s2_bits::Bits;
use s2_check::hard_into;
use s2_mode::Mode;
use s2_report::Tally;

/// The number of positions in which a word differs from the hard decision of soft values. It is written to `hard`.
pub(crate) fn changed_bits(mode: Mode, soft: &[i16], word: &Bits, hard: &mut Bits) -> Tally
    requires soft { length soft.now ≡ n_of mode }
    requires word { length word.now ≡ n_of mode }
    requires hard { length hard.old ≡ n_of mode }
    ensures is { result ≡ changed_bits mode soft.now word.now }
    ensures long { length hard.new ≡ n_of mode }
{
    hard_into(soft, hard);
    Tally {
        sum: hard.distance(word) as u64,
        of: mode.n() as u64,
    }
}

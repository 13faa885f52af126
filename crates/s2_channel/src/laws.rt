//! Laws of the definitions: each a call that does nothing, whose clause is the law.
ghost use Rattle.s2_channel.specs.Laws.{SilentLaw, SilentStreamLaw, TableLaw, VarianceLaw};

/// At level 0 each symbol is unchanged, and so is a stream of bytes, up to the bytes after its last whole
/// symbol. The words are drawn all the same.
pub fn silent()
    ensures symbol { SilentLaw }
    ensures stream { SilentStreamLaw }
{}

/// The table of Gaussian noise has the moments of a normal distribution, up to the sixth. The sum of all entries is 0. The fourth and
/// the sixth moment are those of a normal distribution of the same variance, to 0.001. The odd ones are 0, since each size is in it
/// with both signs.
pub fn table()
    ensures { TableLaw }
{}

/// The amplitude at an Es/N0 of E dB is right at each tenth of a dB: the sum of eight entries of the table, times this amplitude, has
/// the variance N0/2 = 490000 · 10^(-E/10), to 0.001 %. This is the noise of a component before it is rounded to a whole number.
/// Rounding changes the variance by another 0.014 % at 30 dB and 0.173 % at 40 dB.
pub fn gaussian()
    ensures variance { VarianceLaw }
{}

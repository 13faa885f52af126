//! Laws of the definitions: each a call that does nothing, whose clause is the law.
ghost use Rattle.s2_mode.specs.Limits.{LimitsLaw};
ghost use Rattle.s2_mode.specs.Mode.{CodeRatesLaw};
ghost use Rattle.s2_mode.specs.Symbols.{SymbolsBackLaw};

/// Symbols of 16-bit components are read back from their bytes.
pub fn symbols_back()
    ensures { SymbolsBackLaw }
{}

/// The code rate that a mode is named by is that of its inner code, k / n of normal frames.
pub fn code_rates()
    ensures { CodeRatesLaw }
{}

/// The limits that are tested, [`crate::MAX_BITS`], [`crate::MAX_GROUP`], [`crate::MAX_MODCOD`], [`crate::MAX_SOFT`],
/// [`crate::HEADER_SYMBOLS`], [`crate::DUMMY_SYMBOLS`] and [`crate::MAX_SYMBOLS`], are those of the definitions.
pub fn limits()
    ensures { LimitsLaw }
{}

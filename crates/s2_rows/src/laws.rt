//! Laws of the definitions, each the contract of a function that does nothing.
ghost use Rattle.s2_rows.specs.Limits.{LimitsLaw};
ghost use Rattle.s2_rows.specs.MadeRows.{MadeRowsLaw};
ghost use Rattle.s2_rows.specs.RowTexts.{ReadBackLaw, RowFileLaw};
ghost use Rattle.s2_rows.specs.ValueTexts.{ValueTextLaw};

/// The text of rows is accepted, as the same rows.
pub fn read_back()
    ensures { ReadBackLaw }
{}

/// A file of rows is accepted with any layout: spaces, tabs and CRs between and around the addresses, leading zeros,
/// empty lines, and lines of comment.
pub fn row_files()
    ensures { RowFileLaw }
{}

/// A text of numbers from -511 to 511 is read as these numbers with any layout. A line has any number of them. There
/// may be spaces, tabs and CRs between and around them, leading zeros, empty lines, and lines of comment.
pub fn value_texts()
    ensures { ValueTextLaw }
{}

/// Made rows have their weight, and their addresses are below n - k, each once in its row. The first address of all is
/// the generator's first word modulo n - k.
pub fn made_rows()
    ensures { MadeRowsLaw }
{}

/// The limit that is tested, [`crate::MAX_ADDRESSES`], is that of the format.
pub fn limits()
    ensures { LimitsLaw }
{}

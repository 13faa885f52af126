//! Faults, and their lines on the errors.
ghost use Rattle.std.specs.Prelude.{◌≡◌, ◌++◌, codes, OnOk};
ghost use Rattle.std.specs.Io.KnownBytes.{Appends};
ghost use Rattle.s2_mode.specs.Counts.{CanCount, CountsFault};
ghost use Rattle.s2_mode.specs.FaultTexts.{said};
ghost use Rattle.s2_io.specs.Faults.{fault_text, fault_line, phrase_text, end_text};

use crate::line::Line;
use crate::reason::Reason;
use s2_mode::{CountedWrite, FaultText, WriteFault, write_full};

/// Why a command failed.
#[derive(Drop)]
pub enum Fault<'a> {
    /// The file of this name cannot be opened or made.
    Open(&'a str),
    /// The file of this name is to be written, and is already read or written under another name or the same; or a
    /// standard stream is named twice.
    UsedTwice(&'a str),
    Read,
    Write,
    TooLong,
    NoMemory,
    /// Rows are refused, for this reason.
    Rows(Reason),
    /// A request, or the contents of a file, are refused, for this reason.
    Refused(Reason),
}

impl<'a> Fault<'a> {
    /// A fault with this text.
    pub fn refused(text: FaultText) -> Fault<'a>
        ensures { result ≡ Fault.Refused (said text) }
    {
        Fault::Refused(Reason::new("", text))
    }

    /// A fault of rows with this text.
    pub fn of_rows(text: FaultText) -> Fault<'a>
        ensures { result ≡ Fault.Rows (codes "rows: " ++ said text) }
    {
        Fault::Rows(Reason::new("rows: ", text))
    }

    /// A fault with this text, about a subject.
    pub fn about(subject: &'static str, text: FaultText) -> Fault<'a>
        ensures { result ≡ Fault.Refused (subject.entry.now ++ said text) }
    {
        Fault::Refused(Reason::new(subject, text))
    }
}

/// The line of a fault in its parts: its subject, its words, and for some faults the number of a line or
/// a packet.
#[derive(Clone, Copy)]
struct Phrase<'a> {
    about: &'a str,
    words: &'a str,
    number: Option<u64>,
}

fn plain<'a>(about: &'a str, words: &'a str) -> Phrase<'a>
    ensures { phrase_text result ≡ about.entry.now ++ words.entry.now }
{
    Phrase {
        about,
        words,
        number: None,
    }
}

/// The parts of the text of another crate's fault.
fn parts_of<'a>(reason: Reason) -> Phrase<'a>
    ensures { phrase_text result ≡ reason }
{
    let (about, text) = reason.parts();
    Phrase {
        about,
        words: text.words,
        number: text.number,
    }
}

fn phrase_of<'a>(fault: Fault<'a>) -> Phrase<'a>
    ensures { phrase_text result ≡ fault_text fault.entry }
{
    match fault {
        Fault::Open(name) => plain("cannot open ", name),
        Fault::UsedTwice(name) => plain(name, " is used twice"),
        Fault::Read => plain("", "cannot read"),
        Fault::Write => plain("", "cannot write"),
        Fault::TooLong => plain("", "file too long"),
        Fault::NoMemory => plain("", "no memory"),
        Fault::Rows(reason) => parts_of(reason),
        Fault::Refused(reason) => parts_of(reason),
    }
}

/// The end of a fault's line: its number, if it has one.
fn end_of(number: Option<u64>) -> Line
    ensures { result ≡ end_text number }
{
    let mut line = Line::new();
    if let Some(number) = number {
        line.push_number("", number);
    }
    line.push("\n");
    line
}

fn write_phrase<W: CountedWrite>(out: &mut W, phrase: Phrase<'_>) -> Result<(), WriteFault>
    requires { CanCount (W.count out.old) }
    ensures bytes { OnOk result (Appends (W.contents out.old) (W.contents out.new) (phrase_text phrase.entry ++ codes "\n")) }
    ensures cause { CountsFault (W.count out.old) (W.count out.new) result }
{
    write_full(out, phrase.about.as_bytes())?;
    write_full(out, phrase.words.as_bytes())?;
    write_full(out, end_of(phrase.number).as_bytes())
}

/// Writes the line of a fault.
pub(crate) fn write_fault<W: CountedWrite>(out: &mut W, fault: Fault<'_>) -> Result<(), WriteFault>
    requires { CanCount (W.count out.old) }
    ensures line { OnOk result (Appends (W.contents out.old) (W.contents out.new) (fault_line fault.entry)) }
    ensures cause { CountsFault (W.count out.old) (W.count out.new) result }
{
    write_full(out, "s2: ".as_bytes())?;
    write_phrase(out, phrase_of(fault))
}

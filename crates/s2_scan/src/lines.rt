//! The lines of candidates.
ghost use Rattle.std.specs.Prelude.{◌≡◌, ◌<◌, ◌≤◌, ◌/◌, ◌++◌, [], codes, get_or, map, if◌then◌else◌, OnOk};
ghost use Rattle.s2_scan.specs.Lines as lines;

use crate::candidate::Candidate;
use crate::texts::{push, push_number};
use std::alloc::AllocError;

/// The names of MODCOD 0 to 28.
const NAMES: [&str; 29] = [
    "dummy",
    "qpsk1/4",
    "qpsk1/3",
    "qpsk2/5",
    "qpsk1/2",
    "qpsk3/5",
    "qpsk2/3",
    "qpsk3/4",
    "qpsk4/5",
    "qpsk5/6",
    "qpsk8/9",
    "qpsk9/10",
    "8psk3/5",
    "8psk2/3",
    "8psk3/4",
    "8psk5/6",
    "8psk8/9",
    "8psk9/10",
    "16apsk2/3",
    "16apsk3/4",
    "16apsk4/5",
    "16apsk5/6",
    "16apsk8/9",
    "16apsk9/10",
    "32apsk3/4",
    "32apsk4/5",
    "32apsk5/6",
    "32apsk8/9",
    "32apsk9/10",
];

/// A text of a table.
fn text_at(texts: &[&'static str; 29], at: usize) -> &'static str
    requires { at < 29 }
    ensures { result.now ≡ get_or (map (λ t. t.now) texts.now) at [] }
{
    texts[at]
}

/// The name of a header's MODCOD.
#[tactic(auto, unfolding(crate::specs::Lines::name_at))]
pub(crate) fn name_at(header: usize) -> &'static str
    ensures { result.now ≡ lines.name_at header }
{
    let modcod = header / 4;
    if modcod < 29 {
        text_at(&NAMES, modcod)
    } else {
        ""
    }
}

/// One text or another.
pub(crate) fn choose(which: bool, yes: &'static str, no: &'static str) -> &'static str
    ensures { result.now ≡ (if which then yes.now else no.now) }
{
    if which { yes } else { no }
}

/// Whether frames are short.
pub(crate) fn is_short(header: usize) -> bool
    ensures { result ≡ lines.is_short header }
{
    header / 2 % 2 == 1
}

/// Whether frames have pilots.
pub(crate) fn has_pilots(header: usize) -> bool
    ensures { result ≡ lines.has_pilots header }
{
    header % 2 == 1
}

/// Whether undoing a form begins with conjugation.
pub(crate) fn is_conjugate(form: usize) -> bool
    ensures { result ≡ lines.is_conjugate form }
{
    form % 8 >= 4
}

/// A header in words.
#[tactic(auto, unfolding(crate::specs::Lines::header_words))]
fn push_header(text: &mut Vec<u8>, header: usize) -> Result<(), AllocError>
    ensures { OnOk result (text.new.items ≡ text.old.items ++ lines.header_words header) }
{
    push(text, name_at(header))?;
    push(text, choose(is_short(header), " short", " normal"))?;
    push(text, choose(has_pilots(header), " pilots", " no-pilots"))
}

/// The positions of a header in words.
#[tactic(auto, unfolding(crate::specs::Lines::place_words))]
fn push_places(text: &mut Vec<u8>, candidate: &Candidate) -> Result<(), AllocError>
    ensures { OnOk result (text.new.items ≡ text.old.items ++ lines.place_words candidate.now) }
{
    push_number(text, " seen ", candidate.seen as u64)?;
    push_number(text, " first ", candidate.first)?;
    push_number(text, " every ", candidate.every)
}

/// A form in words.
#[tactic(auto, unfolding(crate::specs::Lines::form_words))]
fn push_form(text: &mut Vec<u8>, form: usize) -> Result<(), AllocError>
    ensures { OnOk result (text.new.items ≡ text.old.items ++ lines.form_words form) }
{
    push_number(text, " turn ", ((4 - form % 4) % 4) as u64)?;
    push(
        text,
        choose(is_conjugate(form), " conjugate yes", " conjugate no"),
    )?;
    push(text, choose(form >= 8, " bytes little", " bytes big"))
}

/// The line of a candidate.
#[tactic(auto, unfolding(crate::specs::Lines::line_of))]
pub(crate) fn push_line(text: &mut Vec<u8>, candidate: &Candidate) -> Result<(), AllocError>
    ensures { OnOk result (text.new.items ≡ text.old.items ++ lines.line_of candidate.now) }
{
    push_header(text, candidate.header)?;
    push_places(text, candidate)?;
    push_form(text, candidate.form)?;
    push_number(text, " amplitude ", candidate.amplitude)?;
    push(text, "\n")
}

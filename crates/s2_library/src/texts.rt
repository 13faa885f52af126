//! The texts of results.
ghost use Rattle.std.specs.Prelude.{◌≡◌, ◌<◌, [], get_or, map};
ghost use Rattle.s2_library.specs.Copying.{Copies};
ghost use Rattle.s2_library.specs.Texts.{result_text};

use crate::copying::copy_items;
use crate::refusal::Refusal;

/// The texts of success and of the refusals, in the order of their numbers.
const TEXTS: [&str; 23] = [
    "ok",
    "out of memory",
    "the handle is empty or ended",
    "the handle is of another kind",
    "the handle to be filled is not empty",
    "the size in the struct is not that of the struct",
    "no such mode",
    "no such shape of a code",
    "the rows are no row file of the shape",
    "the code is not of the mode's shape",
    "the scrambling number is over 262141",
    "the roll-off is over 2",
    "a number of the tuning is out of its range",
    "an option has a value that it cannot have",
    "more was given than can be taken",
    "the buffer is too short",
    "a packet does not begin with 47 hexadecimal",
    "not a whole packet at the end",
    "the stream was closed",
    "the limit of packets is reached",
    "not n soft values from -511 to 511",
    "not a certificate file",
    "there is none here",
];

/// A text of a table.
fn text_at(texts: &[&'static str; 23], at: usize) -> &'static str
    requires { at < 23 }
    ensures { result.now ≡ get_or (map (λ t. t.now) texts.now) at [] }
{
    texts[at]
}

/// The text of a result's number.
#[tactic(auto, unfolding(crate::specs::Texts::result_text))]
fn text_of(number: i32) -> &'static str
    ensures { result.now ≡ result_text number }
{
    if number > 0 || number < -22 {
        "unknown result"
    } else {
        text_at(&TEXTS, number.unsigned_abs() as usize)
    }
}

/// Copies the text of a result's number.
pub fn error_text(number: i32, out: &mut [u8], count: &mut usize) -> Result<(), Refusal>
    ensures { Copies (result_text number) out.old out.new count.new result }
{
    copy_items(text_of(number).as_bytes(), out, count)
}

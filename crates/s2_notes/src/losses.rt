//! The bytes of a packet file that `--resync` left out: the note on them, and the exit. And the notes on a refused audit and on
//! numbers that are typed. This is plain code.
ghost use Rattle.std.specs.Prelude.{◌≢◌, ◌+◌, ◌≤◌, length};
ghost use Rattle.s2_io.specs.Lines.{line_room};

use crate::errors::write_note;
use s2_io::{Disk, Exit, Line, Terminal};
use s2_resync::LeftOut;

/// Appends words, a number, and a noun, which is plural unless the number is 1.
fn push_counted(line: &mut Line, words: &str, number: u64, noun: &str)
    requires { length line.old + (length words.now + 40) + (length noun.now + 1) ≤ line_room }
    ensures { length line.new ≤ length line.old + (length words.now + 40) + (length noun.now + 1) }
{
    line.push_number(words, number);
    line.push(noun);
    if number != 1 {
        line.push("s");
    }
}

/// The note on bytes that were left out.
fn left_out_note(left_out: LeftOut) -> Line {
    let mut line = Line::new();
    push_counted(&mut line, "s2: note: ", left_out.bytes, " byte");
    push_counted(&mut line, " left out in ", left_out.places, " place");
    line.push("\n");
    line
}

/// Notes the bytes that were left out, if there are any.
pub fn note_left_out<R: Disk>(terminal: &Terminal<'_, R>, left_out: LeftOut) {
    if left_out.bytes > 0 {
        write_note(terminal, left_out_note(left_out).as_bytes());
    }
}

/// The exit of a command that ended so: that of a loss, if all went well but bytes were left out.
pub fn exit_after(left_out: LeftOut, exit: Exit) -> Exit
    ensures { result ≢ Exit.Fault → exit ≢ Exit.Fault }
{
    if exit == Exit::Fine && left_out.bytes > 0 {
        Exit::No
    } else {
        exit
    }
}

/// Notes which numbers the program without arguments waits for.
pub fn note_typed<R: Disk>(terminal: &Terminal<'_, R>) {
    let note =
        "s2: note: reading 20 numbers from -511 to 511, then Ctrl-D; s2 --help lists the commands\n";
    write_note(terminal, note.as_bytes());
}

/// Notes the likely causes of a refused audit.
pub fn note_audit<R: Disk>(terminal: &Terminal<'_, R>, exit: Exit) {
    if exit == Exit::No {
        let note =
            "s2: note: likely causes: another divisor (try --tuned), another mode, or a recording that was cut or shifted\n";
        write_note(terminal, note.as_bytes());
    }
}

//! The files that `stitch` reads besides: the records of the pieces, and the symbols once more.
ghost use Rattle.std.specs.Prelude.{◌≡◌, ◌≤◌, IfOk, OnOk};
ghost use Rattle.std.specs.Option.{ForSome};

use s2_opening::{Opens, Unserved};

/// The names of the files: that of the records, and that of the symbols once more, if it is given. The seals of the records begin
/// with the seed.
#[derive(Clone, Copy)]
pub(crate) struct BesideNames<'a> {
    pub records: &'a str,
    pub again: Option<&'a str>,
    pub seed: u64,
}

/// The records, the symbols, and the seed of the records' seals, if the command reads them.
pub(crate) struct Beside<I> {
    pub files: Option<(I, I, u64)>,
}

impl<I: Drop> Drop for Beside<I> {
    fn drop(self) {
        let Beside { files: _ } = self;
    }
}

impl<I> Beside<I> {
    /// The records, the symbols, and the seed.
    pub(crate) fn into_files(self) -> Option<(I, I, u64)>
        ensures { result ≡ self.files }
    {
        let Beside { files } = self;
        files
    }
}

/// The name of the file that has the symbols once more. The recording itself serves if it has a length: then it is a regular file.
fn again_name<'a>(
    names: BesideNames<'a>,
    recording: &'a str,
    length: Option<u64>,
) -> Result<&'a str, Unserved<'a>> {
    match names.again {
        Some(name) => Ok(name),
        None if length.is_some() => Ok(recording),
        None => Err(Unserved::ReadOnce),
    }
}

/// Opens the files, if the command reads them, after the recording of this name.
pub(crate) fn open_beside<'a, P: Opens<'a>>(
    opener: &mut P,
    names: Option<BesideNames<'a>>,
    recording: &'a str,
) -> Result<Beside<P::Input>, Unserved<'a>>
    requires { P.opened opener.old ≤ 3 }
    ensures count { OnOk result (P.opened opener.new ≤ 5) }
    ensures fresh { IfOk result (λ made. ForSome made.files (λ b. (P.Input.count b.0 ≡ 0) × (P.Input.count b.1 ≡ 0))) }
{
    let Some(names) = names else {
        return Ok(Beside { files: None });
    };
    let again = again_name(names, recording, opener.last_length())?;
    let records = opener.read_buffered(names.records)?;
    let copy = opener.read_buffered(again)?;
    Ok(Beside {
        files: Some((records, copy, names.seed)),
    })
}

//! The files of records, and the one that says how the report was made: opened and finished.
ghost use Rattle.std.specs.Prelude.{◌≡◌, ◌≢◌, ◌≤◌, IfOk, OnErr};
ghost use Rattle.s2_receive.specs.Sinks.{wanted_count};
ghost use Rattle.s2_record_files.specs.Failed.{records_failed};

use crate::about::finish_about;
use crate::file_words::FileWords;
use crate::link_request::LinkRequest;
use s2_about::FileSums;
use s2_io::{Exit, Output, Truncating};
use s2_mode::Mode;
use s2_opening::{Opens, Unserved};
use s2_record_files::{RecordFiles, end_records, finish_command, open_file, open_records};
use std::alloc::Global;

/// The files of records, and the one that says how the report was made.
pub(crate) struct Recorded<W> {
    pub records: RecordFiles<W>,
    pub about: Option<Truncating<W>>,
}

impl<W: Drop> Drop for Recorded<W> {
    fn drop(self) {
        let Recorded {
            records: _,
            about: _,
        } = self;
    }
}

/// Opens the files of records, and the one that says how the report was made, after all others.
pub(crate) fn open_recorded<'a, P: Opens<'a>>(
    opener: &mut P,
    alloc: Global,
    mode: Mode,
    words: &FileWords<'a>,
) -> Result<Recorded<P::Output>, Unserved<'a>>
    requires { P.opened opener.old ≤ 6 }
    ensures fresh { IfOk result (λ made. records_failed P.Output.count made.records ≡ 0) }
    ensures about { IfOk result (λ made. wanted_count (λ file. P.Output.count file.to) made.about ≡ 0) }
{
    let records = open_records(opener, alloc, mode, words.records)?;
    let about = open_file(opener, words.about)?;
    Ok(Recorded { records, about })
}

impl<W: Output + Drop> Recorded<W> {
    /// The end of a command: its files of records are finished, the one of a piece with its end record, if that has this position. Then
    /// the file on its report is written.
    pub(crate) fn finish<'a>(
        self,
        alloc: Global,
        request: LinkRequest<'_, '_>,
        end: Option<u64>,
        mode: &Mode,
        exit: Exit,
        begun: bool,
        sums: Option<&FileSums>,
    ) -> Result<(), Unserved<'a>>
        requires records { records_failed W.count self.records ≤ 1 }
        requires about { wanted_count (λ t. W.count t.to) self.about ≡ 0 }
        ensures { OnErr result (exit ≢ Exit.Fault) }
    {
        let Recorded { mut records, about } = self;
        if end_records(end, mode, exit, &mut records).is_err() {
            return Err(Unserved::Write);
        }
        match finish_command(exit, begun, records) {
            Ok(()) => finish_about(alloc, request, exit, begun, about, sums),
            Err(_) => Err(Unserved::Write),
        }
    }
}

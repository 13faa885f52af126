//! The files of `judge`, as one value.
use s2_io::{Destination, Output};
use s2_mode::CountedRead;
use std::marker::Model;

/// The files of `judge`: its row file, its value file, and the file for a certificate, if there is one.
///
/// In contracts they are the unread bytes of the first two, the contents of the third and whether it was begun, and the
/// number of failed calls of each. If there is no third file, its contents are unknown, and no call of it fails.
pub struct JudgeFiles<R: CountedRead, C: Output> {
    pub rows: R,
    pub soft: R,
    pub certificate: Option<Destination<C>>,
}

impl<R: CountedRead + Drop, C: Output + Drop> Drop for JudgeFiles<R, C> {
    fn drop(self) {
        let JudgeFiles {
            rows: _,
            soft: _,
            certificate: _,
        } = self;
    }
}

impl<R: CountedRead, C: Output> Model for JudgeFiles<R, C> {
    ghost use Rattle.s2_judging.specs.Files.{JudgeFiles as JudgeFilesValue, written};

    ghost Value = { JudgeFilesValue };

    ghost view = { λ f. record {
      rows = R.remaining f.rows;
      soft = R.remaining f.soft;
      rows_failed = R.count f.rows;
      soft_failed = R.count f.soft;
      certificate = written C.contents C.count f.certificate;
    } };
}

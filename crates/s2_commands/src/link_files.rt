//! The files of a command on a link.
use s2_io::Destination;
use s2_mode::{CountedRead, CountedWrite};
use std::marker::Model;

/// The files of a command on a link: its row file, the file that it reads after that, and the file that it writes.
pub struct LinkFiles<R: CountedRead, W: CountedWrite> {
    pub rows: R,
    pub from: R,
    pub to: Destination<W>,
}

impl<R: CountedRead + Drop, W: CountedWrite + Drop> Drop for LinkFiles<R, W> {
    fn drop(self) {
        let LinkFiles {
            rows: _,
            from: _,
            to: _,
        } = self;
    }
}

impl<R: CountedRead, W: CountedWrite> Model for LinkFiles<R, W> {
    ghost use Rattle.s2_io.specs.Files.{Files, piped};

    ghost Value = { Files };

    ghost view = { λ f. record {
      rows = R.remaining f.rows;
      rows_failed = R.count f.rows;
      begun = f.to.begun;
      streams = piped (R.remaining f.from) (R.count f.from) (W.contents f.to.to) (W.count f.to.to);
    } };
}

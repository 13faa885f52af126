//! Finishes the files of records: the end record of a piece, and the truncation of files to which nothing was written.
ghost use Rattle.std.specs.Prelude.{◌≡◌, ◌≢◌, ◌≤◌, OnErr, OnOk};
ghost use Rattle.s2_receive.specs.Sinks.{wanted_count};
ghost use Rattle.s2_record_files.specs.Failed.{received_failed, recorder_failed, records_failed, sent_failed, symbols_failed, words_failed};

use crate::record_files::{ReceivedRecords, RecordFiles, SentRecords, SymbolRecords, WordRecords};
use s2_io::{Exit, Output, Truncating};
use s2_mode::{Mode, WriteFault};
use s2_records::{Bbframes, Certificates, Codewords, Labels, PlainSymbols, Recorder, Values};

/// Writes the end record of a piece of a mode, if there is a recorder.
fn end_recorder<W: Output>(
    last: u64,
    mode: &Mode,
    recorder: &mut Option<Recorder<Truncating<W>>>,
) -> Result<(), WriteFault>
    requires { recorder_failed W.count recorder.old ≤ 1 }
    ensures { OnOk result (recorder_failed W.count recorder.new ≡ recorder_failed W.count recorder.old) }
{
    match recorder {
        Some(recorder) => recorder.finish(last, mode.n()),
        None => Ok(()),
    }
}

/// Writes the end record of a piece of a mode, which has this position, if a command without a fault received the piece.
pub fn end_records<W: Output>(
    last: Option<u64>,
    mode: &Mode,
    exit: Exit,
    records: &mut RecordFiles<W>,
) -> Result<(), WriteFault>
    requires { records_failed W.count records.old ≤ 1 }
    ensures few { OnOk result (records_failed W.count records.new ≤ 1) }
    ensures first { OnErr result (exit ≢ Exit.Fault) }
{
    match last {
        Some(last) if exit != Exit::Fault => end_recorder(last, mode, &mut records.received.0),
        _ => Ok(()),
    }
}

/// Truncates a file if nothing was written to it.
fn finish_file<W: Output + Drop>(file: Option<Truncating<W>>) -> Result<(), WriteFault>
    requires { wanted_count (λ t. W.count t.to) file ≤ 1 }
{
    match file {
        Some(mut file) => file.finish(),
        None => Ok(()),
    }
}

/// Truncates the files of words and of BBFRAMEs if nothing was written to them.
fn finish_words<W: Output + Drop>(records: WordRecords<Truncating<W>>) -> Result<(), WriteFault>
    requires { words_failed W.count records ≤ 1 }
{
    let (codewords, bbframes) = records;
    let codewords = finish_file(codewords.map(Codewords::into_inner));
    let bbframes = finish_file(bbframes.map(Bbframes::into_inner));
    codewords.and(bbframes)
}

/// Truncates the files of labels and of symbols if nothing was written to them.
fn finish_symbols<W: Output + Drop>(records: SymbolRecords<Truncating<W>>) -> Result<(), WriteFault>
    requires { symbols_failed W.count records ≤ 1 }
{
    let (labels, symbols) = records;
    let labels = finish_file(labels.map(Labels::into_inner));
    let symbols = finish_file(symbols.map(PlainSymbols::into_inner));
    labels.and(symbols)
}

/// Truncates each file of a receiver's records to which nothing was written.
pub(crate) fn finish_received<W: Output + Drop>(
    records: ReceivedRecords<Truncating<W>>,
) -> Result<(), WriteFault>
    requires { received_failed W.count records ≤ 1 }
{
    let (recorder, (certificates, (values, decided))) = records;
    let recorder = finish_file(recorder.map(Recorder::into_inner));
    let certificates = finish_file(certificates.map(Certificates::into_inner));
    let values = finish_file(values.map(Values::into_inner));
    let decided = finish_words(decided);
    recorder.and(certificates).and(values).and(decided)
}

/// Truncates each file of a transmitter's records to which nothing was written.
pub(crate) fn finish_sent<W: Output + Drop>(
    records: SentRecords<Truncating<W>>,
) -> Result<(), WriteFault>
    requires { sent_failed W.count records ≤ 1 }
{
    let (codewords, (bbframes, symbols)) = records;
    let words = finish_words((codewords, bbframes));
    let symbols = finish_symbols(symbols);
    words.and(symbols)
}

/// The end of a command with records and this exit. If its output was begun, each file of records to which nothing was written is
/// truncated.
pub fn finish_command<W: Output + Drop>(
    exit: Exit,
    begun: bool,
    records: RecordFiles<W>,
) -> Result<(), WriteFault>
    requires { records_failed W.count records ≤ 1 }
    ensures { OnErr result (exit ≢ Exit.Fault) }
{
    if !begun {
        return Ok(());
    }
    match records.finish() {
        Err(fault) if exit != Exit::Fault => Err(fault),
        _ => Ok(()),
    }
}

//! Each sink of records, opened if its file is given.
ghost use Rattle.std.specs.Prelude.{◌≡◌, ◌+◌, ◌<◌, ◌≤◌, IfOk, OnOk};
ghost use Rattle.s2_receive.specs.Sinks.{wanted_count};

use s2_io::Truncating;
use s2_mode::Mode;
use s2_opening::{Opens, Unserved};
use s2_records::{Bbframes, Certificates, Codewords, Labels, PlainSymbols, Values};
use std::alloc::Global;

/// Opens a file that is truncated by its first write, if a name is given.
pub fn open_file<'a, P: Opens<'a>>(
    opener: &mut P,
    name: Option<&'a str>,
) -> Result<Option<Truncating<P::Output>>, Unserved<'a>>
    requires room { P.opened opener.old < 12 }
    ensures room { OnOk result (P.opened opener.new ≤ P.opened opener.old + 1) }
    ensures fresh { IfOk result (λ made. wanted_count (λ file. P.Output.count file.to) made ≡ 0) }
{
    match name {
        Some(name) => Ok(Some(Truncating::new(opener.write(name)?))),
        None => Ok(None),
    }
}

/// Opens a file of certificates, if a name is given.
pub(crate) fn open_certificates<'a, P: Opens<'a>>(
    opener: &mut P,
    alloc: Global,
    mode: Mode,
    name: Option<&'a str>,
) -> Result<Option<Certificates<Truncating<P::Output>>>, Unserved<'a>>
    requires room { P.opened opener.old < 12 }
    ensures room { OnOk result (P.opened opener.new ≤ P.opened opener.old + 1) }
    ensures fresh { IfOk result (λ made. wanted_count (λ file. P.Output.count file.to) made ≡ 0) }
{
    let Some(file) = open_file(opener, name)? else {
        return Ok(None);
    };
    match Certificates::new(alloc, mode, file) {
        Ok(sink) => Ok(Some(sink)),
        Err(_) => Err(Unserved::NoMemory),
    }
}

/// Opens a file of soft values, if a name is given.
pub(crate) fn open_values<'a, P: Opens<'a>>(
    opener: &mut P,
    alloc: Global,
    mode: Mode,
    name: Option<&'a str>,
) -> Result<Option<Values<Truncating<P::Output>>>, Unserved<'a>>
    requires room { P.opened opener.old < 12 }
    ensures room { OnOk result (P.opened opener.new ≤ P.opened opener.old + 1) }
    ensures fresh { IfOk result (λ made. wanted_count (λ file. P.Output.count file.to) made ≡ 0) }
{
    let Some(file) = open_file(opener, name)? else {
        return Ok(None);
    };
    match Values::new(alloc, mode, file) {
        Ok(sink) => Ok(Some(sink)),
        Err(_) => Err(Unserved::NoMemory),
    }
}

/// Opens a file of decided words, if a name is given.
pub(crate) fn open_codewords<'a, P: Opens<'a>>(
    opener: &mut P,
    alloc: Global,
    mode: Mode,
    name: Option<&'a str>,
) -> Result<Option<Codewords<Truncating<P::Output>>>, Unserved<'a>>
    requires room { P.opened opener.old < 12 }
    ensures room { OnOk result (P.opened opener.new ≤ P.opened opener.old + 1) }
    ensures fresh { IfOk result (λ made. wanted_count (λ file. P.Output.count file.to) made ≡ 0) }
{
    let Some(file) = open_file(opener, name)? else {
        return Ok(None);
    };
    match Codewords::new(alloc, mode, file) {
        Ok(sink) => Ok(Some(sink)),
        Err(_) => Err(Unserved::NoMemory),
    }
}

/// Opens a file of BBFRAMEs, if a name is given.
pub(crate) fn open_bbframes<'a, P: Opens<'a>>(
    opener: &mut P,
    alloc: Global,
    mode: Mode,
    name: Option<&'a str>,
) -> Result<Option<Bbframes<Truncating<P::Output>>>, Unserved<'a>>
    requires room { P.opened opener.old < 12 }
    ensures room { OnOk result (P.opened opener.new ≤ P.opened opener.old + 1) }
    ensures fresh { IfOk result (λ made. wanted_count (λ sink. P.Output.count sink.to.to) made ≡ 0) }
{
    let Some(file) = open_file(opener, name)? else {
        return Ok(None);
    };
    match Bbframes::new(alloc, mode, file) {
        Ok(sink) => Ok(Some(sink)),
        Err(_) => Err(Unserved::NoMemory),
    }
}

/// Opens a file of labels, if a name is given.
pub(crate) fn open_labels<'a, P: Opens<'a>>(
    opener: &mut P,
    alloc: Global,
    mode: Mode,
    name: Option<&'a str>,
) -> Result<Option<Labels<Truncating<P::Output>>>, Unserved<'a>>
    requires room { P.opened opener.old < 12 }
    ensures room { OnOk result (P.opened opener.new ≤ P.opened opener.old + 1) }
    ensures fresh { IfOk result (λ made. wanted_count (λ sink. P.Output.count sink.to.to) made ≡ 0) }
{
    let Some(file) = open_file(opener, name)? else {
        return Ok(None);
    };
    match Labels::new(alloc, mode, file) {
        Ok(sink) => Ok(Some(sink)),
        Err(_) => Err(Unserved::NoMemory),
    }
}

/// Opens a file of symbols before scrambling, if a name is given.
pub(crate) fn open_plain_symbols<'a, P: Opens<'a>>(
    opener: &mut P,
    alloc: Global,
    mode: Mode,
    name: Option<&'a str>,
) -> Result<Option<PlainSymbols<Truncating<P::Output>>>, Unserved<'a>>
    requires room { P.opened opener.old < 12 }
    ensures room { OnOk result (P.opened opener.new ≤ P.opened opener.old + 1) }
    ensures fresh { IfOk result (λ made. wanted_count (λ sink. P.Output.count sink.to.to) made ≡ 0) }
{
    let Some(file) = open_file(opener, name)? else {
        return Ok(None);
    };
    match PlainSymbols::new(alloc, mode, file) {
        Ok(sink) => Ok(Some(sink)),
        Err(_) => Err(Unserved::NoMemory),
    }
}

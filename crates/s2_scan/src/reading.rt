//! A recording that is read block by block.
ghost use Rattle.std.specs.Prelude.{◌≡◌, ◌≢◌, ◌+◌, ◌*◌, ◌-◌, ◌^◌, ◌<◌, ◌≤◌, ◌++◌, [], true, false, length, take, drop, Err, IfErr, IfOk, IsOkUnless, OnOk, vec_len};
ghost use Rattle.std.specs.Io.KnownBytes.{IsAtEnd};
ghost use Rattle.s2_mode.specs.Counts.{CanCount};
ghost use Rattle.s2_scan.specs.Inside.{AreHeaders, Completes, Filled, GoesOn};
ghost use Rattle.s2_scan.specs.Passing.{passes_below, positions_in};
ghost use Rattle.s2_scan.specs.Pilots.{front_bytes};
ghost use Rattle.s2_scan.specs.Scanning.{AreSeen, IsOutside, MayFail};

use crate::codes::{HEADERS, all_headers};
use crate::passes::Pass;
use crate::windows::push_block;
use s2_io::Fault;
use s2_mode::{CountedRead, read_full};
use std::alloc::Global;

/// The bytes of the symbols that are kept for the next block: those of 89.
const KEPT: usize = 356;

/// The positions of a block.
const POSITIONS: u64 = 8192;

/// The bytes of a block: those kept, and four for each position.
const BLOCK: usize = 33_124;

/// The most blocks of a recording.
const MAX_BLOCKS: u32 = 134_217_728;

/// The first bytes of a recording that are kept for its pilots: those of 2^22 symbols.
const FRONT: usize = 16_777_216;

/// The passes of a recording, and its first bytes.
pub(crate) struct Seen {
    pub(crate) passes: Vec<Pass>,
    pub(crate) front: Vec<u8>,
}

impl Drop for Seen {
    fn drop(self) {
        let Seen {
            passes: _,
            front: _,
        } = self;
    }
}

/// The state of reading: the passes and the first bytes so far, the bytes kept, and the position of the first of these.
struct Feed {
    passes: Vec<Pass>,
    front: Vec<u8>,
    block: Vec<u8>,
    held: usize,
    first: u64,
}

impl Drop for Feed {
    fn drop(self) {
        let Feed {
            passes: _,
            front: _,
            block: _,
            held: _,
            first: _,
        } = self;
    }
}

impl Feed {
    /// What was seen.
    fn into_seen(self) -> Seen
        ensures passes { result.passes ≡ self.passes }
        ensures front { result.front ≡ self.front }
    {
        let Feed {
            passes,
            front,
            block: _,
            held: _,
            first: _,
        } = self;
        Seen { passes, front }
    }
}

/// Nothing read, and room for a block.
fn begin(alloc: Global) -> Result<Feed, Fault<'static>>
    ensures empty { IfOk result (λ f. f.passes.items ≡ []) }
    ensures front { IfOk result (λ f. f.front.items ≡ []) }
    ensures room { IfOk result (λ f. vec_len f.block ≡ 33124) }
    ensures held { IfOk result (λ f. f.held ≡ 0) }
    ensures first { IfOk result (λ f. f.first ≡ 0) }
    ensures told { IsOkUnless result Fault.NoMemory }
{
    let block = vec![in alloc; 0u8; BLOCK].map_err(|_| Fault::NoMemory)?;
    Ok(Feed {
        passes: Vec::new(alloc),
        front: Vec::new(alloc),
        block,
        held: 0,
        first: 0,
    })
}

/// Fills a block with bytes after those that it has held, and returns the place up to which it is filled.
fn fill<R: CountedRead>(
    reader: &mut R,
    block: &mut Vec<u8>,
    held: usize,
) -> Result<usize, Fault<'static>>
    requires count { CanCount (R.count reader.old) }
    requires size { vec_len block.old ≡ 33124 }
    requires held { held ≤ 356 }
    ensures size { vec_len block.new ≡ 33124 }
    ensures bound { IfOk result (λ total. (held ≤ total) × (total ≤ 33124)) }
    ensures filled { IfOk result (Filled (R.remaining reader.old) (R.remaining reader.new) block.old.items block.new.items held) }
    ensures end { IfOk result (λ total. total < 33124 → IsAtEnd (R.remaining reader.new)) }
    ensures read { result ≡ Err Fault.Read → R.count reader.new ≡ R.count reader.old + 1 }
    ensures no_other { result ≢ Err Fault.Read → R.count reader.new ≡ R.count reader.old }
    ensures told { IsOkUnless result Fault.Read }
{
    let (_, room) = block.split_at_mut(held);
    match read_full(reader, room) {
        Ok(count) => Ok(held + count),
        Err(_) => Err(Fault::Read),
    }
}

/// Appends bytes to the first ones, as far as these are kept.
fn push_front(front: &mut Vec<u8>, bytes: &[u8]) -> Result<(), Fault<'static>>
    ensures front { OnOk result (front.new.items ≡ front.old.items ++ take (front_bytes - length front.old.items) bytes.now) }
    ensures told { IsOkUnless result Fault.NoMemory }
{
    let room = FRONT.saturating_sub(front.len());
    match front.extend_from_slice(&bytes[..room.min(bytes.len())]) {
        Ok(()) => Ok(()),
        Err(_) => Err(Fault::NoMemory),
    }
}

/// Appends the passes of a block, filled up to a place, to those before it, and the bytes that were read to the first ones.
fn push_held(numbers: &[u128; HEADERS], feed: &mut Feed, total: usize) -> Result<(), Fault<'static>>
    requires headers { AreHeaders numbers.now }
    requires size { vec_len feed.old.block ≡ 33124 }
    requires total { (feed.old.held ≤ total) × (total ≤ 33124) }
    requires few { feed.old.first < 2 ^ 40 }
    ensures passes { OnOk result (feed.new.passes.items ≡ feed.old.passes.items ++ passes_below feed.old.first (take total feed.old.block.items) (positions_in (take total feed.old.block.items))) }
    ensures front { OnOk result (feed.new.front.items ≡ feed.old.front.items ++ take (front_bytes - length feed.old.front.items) (take (total - feed.old.held) (drop feed.old.held feed.old.block.items))) }
    ensures block { feed.new.block ≡ feed.old.block }
    ensures held { feed.new.held ≡ feed.old.held }
    ensures first { feed.new.first ≡ feed.old.first }
    ensures told { IsOkUnless result Fault.NoMemory }
{
    push_front(&mut feed.front, &feed.block[feed.held..total])?;
    match push_block(numbers, feed.first, &feed.block[..total], &mut feed.passes) {
        Ok(()) => Ok(()),
        Err(_) => Err(Fault::NoMemory),
    }
}

/// Keeps the last bytes of a full block for the next one.
fn keep(feed: &mut Feed)
    requires size { vec_len feed.old.block ≡ 33124 }
    requires few { feed.old.first < 2 ^ 40 }
    ensures size { vec_len feed.new.block ≡ 33124 }
    ensures block { take 356 feed.new.block.items ≡ drop 32768 feed.old.block.items }
    ensures held { feed.new.held ≡ 356 }
    ensures first { feed.new.first ≡ feed.old.first + 8192 }
    ensures passes { feed.new.passes ≡ feed.old.passes }
    ensures front { feed.new.front ≡ feed.old.front }
{
    feed.block.copy_within(BLOCK - KEPT.., 0);
    feed.held = KEPT;
    feed.first += POSITIONS;
}

/// Reads a block, and returns whether the recording has ended.
fn read_block<R: CountedRead>(
    numbers: &[u128; HEADERS],
    reader: &mut R,
    feed: &mut Feed,
) -> Result<bool, Fault<'static>>
    requires headers { AreHeaders numbers.now }
    requires count { CanCount (R.count reader.old) }
    requires size { vec_len feed.old.block ≡ 33124 }
    requires held { feed.old.held ≤ 356 }
    requires few { feed.old.first < 2 ^ 40 }
    ensures size { vec_len feed.new.block ≡ 33124 }
    ensures held { feed.new.held ≤ 356 }
    ensures first { IfOk result (λ ended. ended ≡ false → feed.new.first ≡ feed.old.first + 8192) }
    ensures on { IfOk result (λ ended. ended ≡ false → GoesOn (R.remaining reader.old) feed.old (R.remaining reader.new) feed.new) }
    ensures end { IfOk result (λ ended. ended ≡ true → Completes (R.remaining reader.old) feed.old feed.new.passes.items feed.new.front.items) }
    ensures read { result ≡ Err Fault.Read → R.count reader.new ≡ R.count reader.old + 1 }
    ensures no_other { result ≢ Err Fault.Read → R.count reader.new ≡ R.count reader.old }
    ensures told { IfErr result IsOutside }
{
    let held = feed.held;
    let total = fill(reader, &mut feed.block, held)?;
    push_held(numbers, feed, total)?;
    if total < BLOCK {
        return Ok(true);
    }
    keep(feed);
    Ok(false)
}

/// The passes of a recording, and its first bytes.
pub(crate) fn read_seen<R: CountedRead>(
    alloc: Global,
    reader: &mut R,
) -> Result<Seen, Fault<'static>>
    requires { CanCount (R.count reader.old) }
    ensures seen { IfOk result (λ s. AreSeen (R.remaining reader.old) s.passes.items s.front.items) }
    ensures faults { IfErr result (MayFail (R.remaining reader.old)) }
    ensures read { result ≡ Err Fault.Read → R.count reader.new ≡ R.count reader.old + 1 }
    ensures no_other { result ≢ Err Fault.Read → R.count reader.new ≡ R.count reader.old }
{
    let numbers = all_headers();
    let mut feed = begin(alloc)?;
    for _block in 0..MAX_BLOCKS {
        let ended = read_block(&numbers, reader, &mut feed)?;
        if ended {
            return Ok(feed.into_seen());
        }
    }
    Err(Fault::TooLong)
}

//! The bytes and seals of records of decisions. The vectors were packed by another program.
use s2_bits::Bits;
use s2_check::Verdict;
use s2_mode::InMemory;
use s2_stitch::{RecordFault, read_record, record_into, seal_of};
use std::test::Fail;

/// Position 258, a seal, 3 rounds, one byte of certificate, `parity`, the 12 bits a5c, and the byte 7f.
const RECORD: &[u8] =
    b"\0\0\0\0\0\0\x01\x02\x7c\xf6\xe4\x05\xbb\xe9\x13\x4c\0\0\0\x03\0\0\0\x01\x02\xa5\xc0\x7f";

/// The seal of this record for the seed 77 and some soft values.
const SEAL: u64 = 0x7cf6_e405_bbe9_134c;

/// The bytes before the decided bits.
const FRONT: usize = 25;

#[test]
fn seals_the_vector(rt: HostRuntime) -> Result<(), Fail> {
    let word = Bits::from_bytes(rt.alloc(), &RECORD[FRONT..FRONT + 2], 12)?;
    let soft: [i16; 4] = [-8, 127, 0, -32768];
    let verdict = Some(Verdict::Parity);
    assert!(rt; seal_of(77, &soft, 258, 3, verdict, &word, &RECORD[FRONT + 2..]) == SEAL);
    let long: [i16; 9] = [-8, 127, 0, -32768, 5, 6, -7, 8, 9];
    assert!(rt; seal_of(77, &long, 258, 3, verdict, &word, &[0x7f; 9]) == 0x9b13_7239_c90b_bcc1);
    let empty = Bits::from_bytes(rt.alloc(), &[0, 0], 12)?;
    assert!(rt; seal_of(77, &[], 257, 0, None, &empty, &[]) == 0xcb1f_8013_835b_f10e);
    Ok(())
}

#[test]
fn writes_the_vector(rt: HostRuntime) -> Result<(), Fail> {
    let word = Bits::from_bytes(rt.alloc(), &RECORD[FRONT..FRONT + 2], 12)?;
    let mut block = Vec::new(rt.alloc());
    let verdict = Some(Verdict::Parity);
    record_into(
        &mut block,
        258,
        SEAL,
        3,
        verdict,
        &word,
        &RECORD[FRONT + 2..],
    )?;
    assert!(rt; block.as_slice() == RECORD);
    Ok(())
}

#[test]
fn reads_the_vector(rt: HostRuntime) -> Result<(), Fail> {
    let mut reader = InMemory::new(RECORD);
    let record = read_record(rt.alloc(), &mut reader, 12).map_err(|_| "no record")?;
    let record = record.ok_or("no record")?;
    assert!(rt; record.at == 258 && record.seal == SEAL && record.rounds == 3);
    assert!(rt; record.verdict == Some(Verdict::Parity));
    assert!(rt; record.certificate.as_slice() == &RECORD[FRONT + 2..]);
    assert!(rt; record.word.get(0) && !record.word.get(1));
    let end = read_record(rt.alloc(), &mut reader, 12).map_err(|_| "no end")?;
    assert!(rt; end.is_none());
    Ok(())
}

#[test]
fn refuses_a_cut_record(rt: HostRuntime) -> Result<(), Fail> {
    let mut reader = InMemory::new(&RECORD[..FRONT + 2]);
    match read_record(rt.alloc(), &mut reader, 12) {
        Err(RecordFault::NotARecord) => Ok(()),
        _ => Err("a cut record was read".into()),
    }
}

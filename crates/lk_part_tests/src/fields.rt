//! Values and fields: worked examples, and values at the edge of what a field takes.

use lk_model::layouts::Numbers;
use lk_reloc::{Overflow, apply, value};

const NONE: u32 = 0;

const WORD64: u32 = 1;

const PC32: u32 = 2;

const PLT32: u32 = 4;

const GOTPCREL: u32 = 9;

const WORD32: u32 = 10;

const SIGNED32: u32 = 11;

const WORD16: u32 = 12;

const PC16: u32 = 13;

const WORD8: u32 = 14;

const PC8: u32 = 15;

const DTPOFF64: u32 = 17;

const TPOFF32: u32 = 23;

const PC64: u32 = 24;

const GOTOFF64: u32 = 25;

const GOTPC32: u32 = 26;

const SIZE32: u32 = 32;

/// The numbers of a reference; what no case names is a number that would show.
fn numbers(s: u64, a: i64, p: u64) -> Numbers {
    Numbers {
        s,
        a,
        p,
        l: 0x40_1020,
        slot: 0x40_3ff8,
        got: 0x40_4000,
        z: 0x20,
        tls_start: 0x40_5000,
        tls_end: 0x40_5080,
    }
}

/// Ten bytes with a field from the second on.
#[tactic(auto, using(crate::proofs::ShortFields::short_width))]
fn field(code: u32, value: u64) -> Result<[u8; 10], Overflow> {
    let mut bytes = [0xcc; 10];
    apply(&mut bytes, 1, code, value)?;
    Ok(bytes)
}

/// What ten bytes are after a field that is refused.
#[tactic(auto, using(crate::proofs::ShortFields::short_width))]
fn left(code: u32, value: u64) -> ([u8; 10], Result<(), Overflow>) {
    let mut bytes = [0xcc; 10];
    let answer = apply(&mut bytes, 1, code, value);
    (bytes, answer)
}

#[test]
fn an_address_of_four_bytes_is_extended_by_zeros(rt: HostRuntime) {
    assert_eq!(rt;
        field(WORD32, 0xffff_ffff),
        Ok([0xcc, 0xff, 0xff, 0xff, 0xff, 0xcc, 0xcc, 0xcc, 0xcc, 0xcc])
    );
    assert_eq!(rt;
        field(WORD32, 0x1_0000_0000),
        Err(Overflow {
            value: 0x1_0000_0000
        })
    );
}

#[test]
fn a_signed_address_is_extended_by_its_sign(rt: HostRuntime) {
    assert_eq!(rt;
        field(SIGNED32, 0xffff_ffff_8000_0000),
        Ok([0xcc, 0, 0, 0, 0x80, 0xcc, 0xcc, 0xcc, 0xcc, 0xcc])
    );
    assert_eq!(rt; left(SIGNED32, 0x8000_0000).0, [0xcc; 10]);
    assert_eq!(rt;
        left(SIGNED32, 0x8000_0000).1,
        Err(Overflow { value: 0x8000_0000 })
    );
    assert!(rt; field(SIGNED32, 0x7fff_ffff).is_ok());
    assert!(rt; field(SIGNED32, 0xffff_ffff_7fff_ffff).is_err());
}

#[test]
fn a_thread_offset_counts_back_from_the_end_of_the_block(rt: HostRuntime) {
    let offset = value(TPOFF32, &numbers(0x40_5008, 0, 0));
    assert_eq!(rt; offset, 0xffff_ffff_ffff_ff88);
    assert_eq!(rt;
        field(TPOFF32, offset),
        Ok([0xcc, 0x88, 0xff, 0xff, 0xff, 0xcc, 0xcc, 0xcc, 0xcc, 0xcc])
    );
    assert_eq!(rt; value(DTPOFF64, &numbers(0x40_5008, 1, 0)), 9);
}

#[test]
fn distances_count_from_the_place(rt: HostRuntime) {
    let near = numbers(0x40_1010, -4, 0x40_1005);
    assert_eq!(rt; value(PC32, &near), 7);
    assert_eq!(rt; value(PLT32, &near), 0x17);
    assert_eq!(rt; value(GOTPCREL, &near), 0x2fef);
    assert_eq!(rt; value(GOTPC32, &near), 0x2ff7);
    let back = numbers(0x40_1010, 0, 0x40_1018);
    assert_eq!(rt; value(PC64, &back), 0xffff_ffff_ffff_fff8);
    assert_eq!(rt;
        field(PC64, value(PC64, &back)),
        Ok([0xcc, 0xf8, 0xff, 0xff, 0xff, 0xff, 0xff, 0xff, 0xff, 0xcc])
    );
}

#[test]
fn values_without_a_place(rt: HostRuntime) {
    let n = numbers(0x40_1010, 4, 0x40_1000);
    assert_eq!(rt; value(WORD64, &n), 0x40_1014);
    assert_eq!(rt; value(SIZE32, &n), 0x24);
    assert_eq!(rt; value(GOTOFF64, &n), 0xffff_ffff_ffff_d014);
    assert_eq!(rt; value(NONE, &n), 0);
}

/// Ten bytes with a field of two, or of one and the byte behind it.
fn two(low: u8, high: u8) -> Result<[u8; 10], Overflow> {
    Ok([0xcc, low, high, 0xcc, 0xcc, 0xcc, 0xcc, 0xcc, 0xcc, 0xcc])
}

#[test]
fn short_fields_take_a_sign_or_zeros(rt: HostRuntime) {
    assert_eq!(rt; field(WORD16, 0xffff), two(0xff, 0xff));
    assert_eq!(rt; field(WORD16, 0xffff_ffff_ffff_8000), two(0, 0x80));
    assert!(rt; field(WORD16, 0x1_0000).is_err());
    assert!(rt; field(WORD16, 0xffff_ffff_ffff_7fff).is_err());
    assert_eq!(rt; field(PC16, 0x7fff), two(0xff, 0x7f));
    assert!(rt; field(PC16, 0x8000).is_err());
    assert_eq!(rt; field(WORD8, 0xff), two(0xff, 0xcc));
    assert_eq!(rt; field(WORD8, 0xffff_ffff_ffff_ff80), two(0x80, 0xcc));
    assert!(rt; field(WORD8, 0x100).is_err());
    assert_eq!(rt; field(PC8, 0x7f), two(0x7f, 0xcc));
    assert!(rt; field(PC8, 0x80).is_err());
}

#[test]
fn nothing_is_written_for_type_none(rt: HostRuntime) {
    assert_eq!(rt; field(NONE, 0), Ok([0xcc; 10]));
}

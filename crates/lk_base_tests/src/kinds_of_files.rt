//! Each kind and each fault, reported of the first bytes of a file.

use lk_model::summaries::Kind;
use lk_report::InputFault;
use lk_summary::kind_of;

/// The header of a relocatable object: class 64, little-endian, version 1, x86-64.
const OBJECT: [u8; 64] = [
    0x7f, 0x45, 0x4c, 0x46, 2, 1, 1, 0, 0, 0, 0, 0, 0, 0, 0, 0, 1, 0, 62, 0, 0, 0, 0, 0, 0, 0, 0,
    0, 0, 0, 0, 0, 0, 0, 0, 0, 0, 0, 0, 0, 0, 0, 0, 0, 0, 0, 0, 0, 0, 0, 0, 0, 0, 0, 0, 0, 0, 0, 0,
    0, 0, 0, 0, 0,
];

#[test]
fn objects_and_shared_objects_are_reported_apart(rt: HostRuntime) {
    assert_eq!(rt; kind_of(&OBJECT), Ok(Kind::Object));
    let mut shared = OBJECT;
    shared[16] = 3;
    assert_eq!(rt; kind_of(&shared), Ok(Kind::Shared));
}

#[test]
fn the_first_fault_is_reported(rt: HostRuntime) {
    assert_eq!(rt; kind_of(b"!<arch>\n"), Err(InputFault::Archive));
    assert_eq!(rt; kind_of(b"INPUT(x)"), Err(InputFault::Script));
    assert_eq!(rt; kind_of(b""), Err(InputFault::NotElf));
    assert_eq!(rt; kind_of(&OBJECT[..63]), Err(InputFault::NotElf));
    let mut other = OBJECT;
    other[18] = 3;
    other[16] = 2;
    assert_eq!(rt; kind_of(&other), Err(InputFault::WrongMachine));
    other[4] = 1;
    assert_eq!(rt; kind_of(&other), Err(InputFault::WrongClass));
}

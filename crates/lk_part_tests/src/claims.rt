//! Claims of signatures: the first, the later ones, many, and claims for which memory was wanted once.

use lk_comdat::{Claim, Groups};
use lk_report::{Name, NoMemory};
use std::alloc::Global;

/// Claims a signature.
fn claim(
    alloc: Global,
    groups: &mut Groups,
    signature: &[u8],
    input: u32,
) -> Result<Claim, NoMemory> {
    let name = Name::from_slice(alloc, signature)?;
    groups.claim(&name, input)
}

/// Claims a signature, and once more where memory was wanted.
fn claim_twice(
    alloc: Global,
    groups: &mut Groups,
    signature: &[u8],
    input: u32,
) -> Result<Claim, NoMemory> {
    match claim(alloc, groups, signature, input) {
        Ok(claim) => Ok(claim),
        Err(_) => claim(alloc, groups, signature, input),
    }
}

#[test]
fn a_claim_without_memory_is_not_recorded(rt: HostRuntime) {
    let mut groups = Groups::new(rt.alloc());
    for i in 0..8u8 {
        let first = claim_twice(rt.alloc(), &mut groups, &[i], 7);
        assert_eq!(rt; first, Ok(Claim::First));
        let second = claim_twice(rt.alloc(), &mut groups, &[i], 8);
        assert_eq!(rt; second, Ok(Claim::Dropped(7)));
    }
}

#[test]
fn the_first_claim_is_kept(rt: HostRuntime) -> Result<(), NoMemory> {
    let inline = Name::from_slice(rt.alloc(), b"_ZN1a1bEv")?;
    let mut groups = Groups::new(rt.alloc());
    assert_eq!(rt; groups.claim(&inline, 3), Ok(Claim::First));
    assert_eq!(rt; groups.claim(&inline, 5), Ok(Claim::Dropped(3)));
    assert_eq!(rt; groups.claim(&inline, 3), Ok(Claim::Dropped(3)));
    assert_eq!(rt; groups.claim(&inline, 0), Ok(Claim::Dropped(3)));
    Ok(())
}

#[test]
fn two_signatures_have_two_holders(rt: HostRuntime) -> Result<(), NoMemory> {
    let one = Name::from_slice(rt.alloc(), b"one")?;
    let other = Name::from_slice(rt.alloc(), b"on")?;
    let mut groups = Groups::new(rt.alloc());
    assert_eq!(rt; groups.claim(&one, 1), Ok(Claim::First));
    assert_eq!(rt; groups.claim(&other, 2), Ok(Claim::First));
    assert_eq!(rt; groups.claim(&one, 2), Ok(Claim::Dropped(1)));
    assert_eq!(rt; groups.claim(&other, 1), Ok(Claim::Dropped(2)));
    Ok(())
}

#[test]
fn ten_thousand_signatures_are_each_claimed_once(rt: HostRuntime) {
    let mut groups = Groups::new(rt.alloc());
    for i in 0..10_000u32 {
        let first = claim(rt.alloc(), &mut groups, &i.to_le_bytes(), i);
        assert_eq!(rt; first, Ok(Claim::First));
    }
    for i in 0..10_000u32 {
        let second = claim(rt.alloc(), &mut groups, &i.to_le_bytes(), 0);
        assert_eq!(rt; second, Ok(Claim::Dropped(i)));
    }
}

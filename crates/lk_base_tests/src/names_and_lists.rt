//! Names, bytes and lists are made, copied and compared, and names are found by their hash.

use crate::said_texts::{changed, options, site, two_faults};
use lk_report::{Bytes, Name, NameList, NoMemory, TryCopy};
use std::alloc::Global;
use std::collections::HashSet;
use std::process::Abort;

fn expect_copied<T: TryCopy + PartialEq + Drop>(
    rt: &impl Abort,
    alloc: Global,
    it: &T,
) -> Result<(), NoMemory> {
    let same = it.try_copy(alloc)?;
    assert!(rt; same == *it);
    Ok(())
}

#[test]
fn names_are_made_and_copied(rt: HostRuntime) -> Result<(), NoMemory> {
    let word = Name::from_slice(rt.alloc(), b"main")?;
    assert_eq!(rt; Name::from_static(b"main"), word);
    assert!(rt; Name::empty().as_slice().is_empty());
    expect_copied(&rt, rt.alloc(), &word)?;
    assert_eq!(rt; word.as_slice(), b"main".as_slice());
    Ok(())
}

#[test]
fn bytes_are_made_and_copied(rt: HostRuntime) -> Result<(), NoMemory> {
    let bytes = Bytes::from_slice(rt.alloc(), &[0, 255])?;
    expect_copied(&rt, rt.alloc(), &bytes)?;
    assert!(rt; Bytes::empty().as_slice().is_empty());
    assert_eq!(rt; bytes.as_slice(), [0, 255].as_slice());
    Ok(())
}

#[test]
fn a_name_is_a_part_of_the_bytes_of_a_file(rt: HostRuntime) -> Result<(), NoMemory> {
    let file = Bytes::from_slice(rt.alloc(), b"\0main\0")?;
    let name = file.name(1, 5)?;
    drop(file);
    assert_eq!(rt; name.as_slice(), b"main".as_slice());
    Ok(())
}

#[test]
fn names_are_made_of_bytes_that_are_given(rt: HostRuntime) -> Result<(), NoMemory> {
    let mut given = Vec::new(rt.alloc());
    if given.extend_from_slice(b"main").is_err() {
        return Err(NoMemory);
    }
    assert_eq!(rt; Name::from_vec(given)?.as_slice(), b"main".as_slice());
    Ok(())
}

/// Whether names of these two texts are equal.
fn are_equal_names(alloc: Global, one: &[u8], other: &[u8]) -> Result<bool, NoMemory> {
    let one = Name::from_slice(alloc, one)?;
    let other = Name::from_slice(alloc, other)?;
    Ok(one == other)
}

/// Whether bytes made of these two are equal.
fn are_equal_bytes(alloc: Global, one: &[u8], other: &[u8]) -> Result<bool, NoMemory> {
    let one = Bytes::from_slice(alloc, one)?;
    let other = Bytes::from_slice(alloc, other)?;
    Ok(one == other)
}

#[test]
fn names_and_bytes_are_compared(rt: HostRuntime) -> Result<(), NoMemory> {
    let alloc = rt.alloc();
    assert!(rt; are_equal_names(alloc, b"main", b"main")?);
    assert!(rt; !are_equal_names(alloc, b"main", b"mail")?);
    assert!(rt; !are_equal_bytes(alloc, &[0, 255], &[0])?);
    Ok(())
}

fn with_name(mut names: NameList, text: &[u8], alloc: Global) -> Result<NameList, NoMemory> {
    names.push(Name::from_slice(alloc, text)?)?;
    Ok(names)
}

fn two_names(alloc: Global) -> Result<NameList, NoMemory> {
    let one = with_name(NameList::new(alloc), b"a", alloc)?;
    with_name(one, b"b", alloc)
}

#[test]
fn lists_are_made_and_copied(rt: HostRuntime) -> Result<(), NoMemory> {
    let names = two_names(rt.alloc())?;
    expect_copied(&rt, rt.alloc(), &names)?;
    Ok(())
}

#[test]
fn lists_are_compared(rt: HostRuntime) -> Result<(), NoMemory> {
    let alloc = rt.alloc();
    let names = two_names(alloc)?;
    let more = with_name(names.copy(alloc)?, b"c", alloc)?;
    assert!(rt; names != more);
    assert_eq!(rt; more.into_vec().len(), 3);
    Ok(())
}

#[test]
fn causes_are_copied(rt: HostRuntime) -> Result<(), NoMemory> {
    let cause = changed(rt.alloc())?;
    expect_copied(&rt, rt.alloc(), &cause)?;
    Ok(())
}

#[test]
fn options_are_copied(rt: HostRuntime) -> Result<(), NoMemory> {
    let wanted = options(rt.alloc(), 10)?;
    expect_copied(&rt, rt.alloc(), &wanted)?;
    Ok(())
}

#[test]
fn sites_are_copied(rt: HostRuntime) -> Result<(), NoMemory> {
    let place = site(rt.alloc())?;
    expect_copied(&rt, rt.alloc(), &place)?;
    Ok(())
}

#[test]
fn faults_are_copied(rt: HostRuntime) -> Result<(), NoMemory> {
    let faults = two_faults(rt.alloc())?;
    expect_copied(&rt, rt.alloc(), &faults)?;
    Ok(())
}

/// Whether the name is put into the set, where it was not in it.
fn is_new(seen: &mut HashSet<Name>, alloc: Global, text: &[u8]) -> Option<bool> {
    let name = Name::from_slice(alloc, text).ok()?;
    seen.insert(name).ok()
}

#[test]
fn names_are_found_by_hash(rt: HostRuntime) {
    let alloc = rt.alloc();
    let mut seen: HashSet<Name> = HashSet::new(alloc);
    assert_eq!(rt; is_new(&mut seen, alloc, b"f"), Some(true));
    assert_eq!(rt; is_new(&mut seen, alloc, b"g"), Some(true));
    assert_eq!(rt; is_new(&mut seen, alloc, b"f"), Some(false));
}

//! Small links by hand: lib groups whose members are wanted or not, groups of one signature, two strong
//! definitions of one name, and a weak one against common blocks.

use crate::making::{added, both, only, resolved, resolver, symbol, symbols};
use lk_elf::numbers::STB_WEAK;
use lk_model::layouts::{Class, SectionKey};
use lk_model::summaries::{
    Global as Symbol, GlobalList, Group, Home, InputSummary, Kind, PieceInfo, PieceInfoList,
    SummaryList, Winner,
};
use lk_report::{Fault, FaultList, List, Name, NameList, NoMemory};
use lk_resolve::{Resolution, Resolver, SettleFault};
use std::alloc::Global;

/// The code section of an object, number 1.
fn code(alloc: Global) -> Result<PieceInfo, NoMemory> {
    let name = Name::from_slice(alloc, b".text")?;
    let key = SectionKey {
        name: Name::from_slice(alloc, b".text")?,
        class: Class::X,
    };
    Ok(PieceInfo {
        section: 1,
        name,
        key,
        size: 1,
        align: 1,
        terminator: false,
    })
}

/// The code section alone.
fn pieces(alloc: Global) -> Result<PieceInfoList, NoMemory> {
    only(alloc, code(alloc)?)
}

/// An object of these sections and symbols.
fn object_of(alloc: Global, pieces: PieceInfoList, globals: GlobalList) -> InputSummary {
    InputSummary {
        kind: Kind::Object,
        soname: Name::empty(),
        exec_stack: false,
        pieces,
        globals,
        groups: List::new(alloc),
    }
}

/// An object with one section, number 1, in which it defines a name, and with a reference to another.
fn object(alloc: Global, defined: &[u8], wanted: &[u8]) -> Result<InputSummary, NoMemory> {
    let globals = symbols(
        alloc,
        &[(defined, Home::Section(1)), (wanted, Home::Undefined)],
    )?;
    Ok(object_of(alloc, pieces(alloc)?, globals))
}

/// A WEAK symbol, number 3.
fn weak(alloc: Global, name: &[u8], home: Home) -> Result<Symbol, NoMemory> {
    let mut weak = symbol(alloc, 3, name, home)?;
    weak.binding = u32::from(STB_WEAK);
    Ok(weak)
}

/// An object that defines the entry, and has a weak symbol, number 3, of a name.
fn with_weak(alloc: Global, name: &[u8], home: Home) -> Result<InputSummary, NoMemory> {
    let mut object = object(alloc, b"_start", b"_start")?;
    object.globals.push(weak(alloc, name, home)?)?;
    Ok(object)
}

/// An object with nothing but a common block of a name.
fn common(alloc: Global, name: &[u8], size: u64, align: u64) -> Result<InputSummary, NoMemory> {
    let mut block = symbol(alloc, 1, name, Home::Common)?;
    block.size = size;
    block.value = align;
    Ok(object_of(alloc, List::new(alloc), only(alloc, block)?))
}

/// The group of section 1.
fn group(alloc: Global) -> Result<Group, NoMemory> {
    let signature = Name::from_slice(alloc, b"inline")?;
    let members = only(alloc, 1)?;
    Ok(Group { signature, members })
}

/// An object that defines the entry in a section of a group.
fn grouped(alloc: Global) -> Result<InputSummary, NoMemory> {
    let mut object = object(alloc, b"_start", b"_start")?;
    object.groups.push(group(alloc)?)?;
    Ok(object)
}

/// The paths `a` and `b`.
fn paths(alloc: Global) -> Result<NameList, NoMemory> {
    let first = Name::from_slice(alloc, b"a")?;
    let second = Name::from_slice(alloc, b"b")?;
    both(alloc, first, second)
}

/// A resolver with these paths.
fn with_paths(alloc: Global) -> Result<Resolver, NoMemory> {
    let paths = paths(alloc)?;
    let mut resolver = resolver(alloc)?;
    resolver.with_paths(&paths)?;
    Ok(resolver)
}

/// A resolver to which an object was added twice.
fn with_twice(alloc: Global, object: &InputSummary) -> Result<Resolver, NoMemory> {
    let mut resolver = with_paths(alloc)?;
    resolver.add_input(0, object)?;
    resolver.add_input(1, object)?;
    Ok(resolver)
}

/// Two members of a lib group that want each other; the second is wanted first.
fn members(alloc: Global) -> Result<SummaryList, NoMemory> {
    let first = object(alloc, b"second", b"first")?;
    let second = object(alloc, b"first", b"second")?;
    both(alloc, first, second)
}

/// A resolver to which an object was added, and a lib group after it.
fn with_group(
    alloc: Global,
    object: &InputSummary,
    members: &SummaryList,
) -> Result<Resolver, NoMemory> {
    let mut resolver = with_paths(alloc)?;
    resolver.add_input(0, object)?;
    resolver.add_group(1, members)?;
    Ok(resolver)
}

/// The resolution of an object and of a lib group of the two members after it.
fn with_members(alloc: Global, object: &InputSummary) -> Result<Resolution, NoMemory> {
    let members = members(alloc)?;
    resolved(with_group(alloc, object, &members)?)
}

/// Whether a name has this winner; none where the resolution does not have the name.
fn means(alloc: Global, resolution: &Resolution, name: &[u8], wanted: Option<Winner>) -> bool {
    let Ok(name) = Name::from_slice(alloc, name) else {
        return false;
    };
    let names = resolution.names();
    match names.find(&name) {
        Some(number) => wanted == Some(names.winner(number)),
        None => wanted.is_none(),
    }
}

#[test]
fn a_member_is_added_once_its_name_is_wanted(rt: HostRuntime) -> Result<(), NoMemory> {
    let object = object(rt.alloc(), b"_start", b"first")?;
    let resolution = with_members(rt.alloc(), &object)?;
    assert_eq!(rt; resolution.added().as_slice(), [0, 2, 1].as_slice());
    assert_eq!(rt; resolution.names().len(), 3);
    assert!(rt; resolution.is_kept(2, 1));
    assert!(rt; !resolution.is_kept(2, 2));
    assert!(rt; !resolution.dynamic());
    Ok(())
}

#[test]
fn a_weak_reference_adds_no_member(rt: HostRuntime) -> Result<(), NoMemory> {
    let object = with_weak(rt.alloc(), b"first", Home::Undefined)?;
    let resolution = with_members(rt.alloc(), &object)?;
    assert_eq!(rt; resolution.added().as_slice(), [0].as_slice());
    assert!(rt; means(rt.alloc(), &resolution, b"first", Some(Winner::Nothing)));
    assert!(rt; means(rt.alloc(), &resolution, b"second", None));
    Ok(())
}

/// The resolution of an object that is added twice.
fn resolved_twice(alloc: Global, object: &InputSummary) -> Result<Resolution, NoMemory> {
    resolved(with_twice(alloc, object)?)
}

#[test]
fn a_second_group_of_a_signature_is_dropped(rt: HostRuntime) -> Result<(), NoMemory> {
    let object = grouped(rt.alloc())?;
    let resolution = resolved_twice(rt.alloc(), &object)?;
    assert!(rt; resolution.is_kept(0, 1));
    assert!(rt; !resolution.is_kept(1, 1));
    assert_eq!(rt; resolution.inputs(), 2);
    Ok(())
}

/// The faults of an object that is added twice.
fn faults_twice(alloc: Global, object: &InputSummary) -> Result<FaultList, NoMemory> {
    match with_twice(alloc, object)?.settle() {
        Err(SettleFault::Faults(faults)) => Ok(faults),
        _ => Err(NoMemory),
    }
}

/// That `b` defines the entry as `a` does.
fn entry_twice(alloc: Global) -> Result<Fault, NoMemory> {
    Ok(Fault::MultipleDefinition {
        name: Name::from_slice(alloc, b"_start")?,
        first: Name::from_slice(alloc, b"a")?,
        second: Name::from_slice(alloc, b"b")?,
    })
}

#[test]
fn a_second_strong_definition_is_reported_against_the_first(
    rt: HostRuntime,
) -> Result<(), NoMemory> {
    let object = object(rt.alloc(), b"_start", b"_start")?;
    let faults = faults_twice(rt.alloc(), &object)?;
    let reported = [entry_twice(rt.alloc())?];
    assert_eq!(rt; faults.as_slice(), reported.as_slice());
    Ok(())
}

/// A weak definition of `name`, and two common blocks of it.
fn commons(alloc: Global) -> Result<SummaryList, NoMemory> {
    let weak = with_weak(alloc, b"name", Home::Section(1))?;
    let first = common(alloc, b"name", 8, 4)?;
    let mut objects = both(alloc, weak, first)?;
    objects.push(common(alloc, b"name", 4, 16)?)?;
    Ok(objects)
}

/// The resolution of these objects.
fn resolution_of(alloc: Global, objects: &SummaryList) -> Result<Resolution, NoMemory> {
    resolved(added(with_paths(alloc)?, objects)?)
}

#[test]
fn commons_are_merged_before_a_weak_definition(rt: HostRuntime) -> Result<(), NoMemory> {
    let resolution = resolution_of(rt.alloc(), &commons(rt.alloc())?)?;
    assert_eq!(rt; resolution.added().as_slice(), [0, 1, 2].as_slice());
    let merged = Winner::Common { size: 8, align: 16 };
    assert!(rt; means(rt.alloc(), &resolution, b"name", Some(merged)));
    Ok(())
}

//! Small objects, and links of two, by hand: what their references need, or the faults that they have.

ghost use Rattle.std.specs.Prelude.{◌≡◌, ◌<◌, IfOk, length};
ghost use Rattle.lk_scan.specs.Targets.{meanings_of};

use lk_model::layouts::GotOwner;
use lk_model::summaries::{Global as Symbol, Home, InputSummary, Kind};
use lk_obj_read::{Object, read_object};
use lk_report::{Bytes, Fault, List, Name, NameList, NoMemory, Site};
use lk_resolve::{Resolution, Resolver};
use lk_scan::{LinkScan, NameMeanings, ScanFailure, Scanned, scan};
use std::alloc::Global;
use std::test::Fail;

/// An object with 16 bytes of code in section 1, the symbol `_start` in it, the undefined symbol `f`, and
/// two relocations of the code that go to `f`: PLT32 at 1 and PC32 at 8.
const OBJECT: [u8; 640] = [
    0x7f, 0x45, 0x4c, 0x46, 2, 1, 1, 0, 0, 0, 0, 0, 0, 0, 0, 0, 1, 0, 0x3e, 0, 1, 0, 0, 0, 0, 0, 0,
    0, 0, 0, 0, 0, 0, 0, 0, 0, 0, 0, 0, 0, 0, 1, 0, 0, 0, 0, 0, 0, 0, 0, 0, 0, 0x40, 0, 0, 0, 0, 0,
    0x40, 0, 6, 0, 5, 0, 0x90, 0x90, 0x90, 0x90, 0x90, 0x90, 0x90, 0x90, 0x90, 0x90, 0x90, 0x90,
    0x90, 0x90, 0x90, 0x90, 1, 0, 0, 0, 0, 0, 0, 0, 4, 0, 0, 0, 2, 0, 0, 0, 0xfc, 0xff, 0xff, 0xff,
    0xff, 0xff, 0xff, 0xff, 8, 0, 0, 0, 0, 0, 0, 0, 2, 0, 0, 0, 2, 0, 0, 0, 0xfc, 0xff, 0xff, 0xff,
    0xff, 0xff, 0xff, 0xff, 0, 0, 0, 0, 0, 0, 0, 0, 0, 0, 0, 0, 0, 0, 0, 0, 0, 0, 0, 0, 0, 0, 0, 0,
    1, 0, 0, 0, 0x12, 0, 1, 0, 0, 0, 0, 0, 0, 0, 0, 0, 0x10, 0, 0, 0, 0, 0, 0, 0, 8, 0, 0, 0, 0x10,
    0, 0, 0, 0, 0, 0, 0, 0, 0, 0, 0, 0, 0, 0, 0, 0, 0, 0, 0, 0, 0x5f, 0x73, 0x74, 0x61, 0x72, 0x74,
    0, 0x66, 0, 0, 0x2e, 0x74, 0x65, 0x78, 0x74, 0, 0x2e, 0x72, 0x65, 0x6c, 0x61, 0x2e, 0x74, 0x65,
    0x78, 0x74, 0, 0x2e, 0x73, 0x79, 0x6d, 0x74, 0x61, 0x62, 0, 0x2e, 0x73, 0x74, 0x72, 0x74, 0x61,
    0x62, 0, 0x2e, 0x73, 0x68, 0x73, 0x74, 0x72, 0x74, 0x61, 0x62, 0, 0, 0, 0, 0, 0, 0, 0, 0, 0, 0,
    0, 0, 0, 0, 0, 0, 0, 0, 0, 0, 0, 0, 0, 0, 0, 0, 0, 0, 0, 0, 0, 0, 0, 0, 0, 0, 0, 0, 0, 0, 0, 0,
    0, 0, 0, 0, 0, 0, 0, 0, 0, 0, 0, 0, 0, 0, 0, 0, 0, 0, 0, 0, 0, 0, 0, 0, 1, 0, 0, 0, 1, 0, 0, 0,
    6, 0, 0, 0, 0, 0, 0, 0, 0, 0, 0, 0, 0, 0, 0, 0, 0x40, 0, 0, 0, 0, 0, 0, 0, 0x10, 0, 0, 0, 0, 0,
    0, 0, 0, 0, 0, 0, 0, 0, 0, 0, 0x10, 0, 0, 0, 0, 0, 0, 0, 0, 0, 0, 0, 0, 0, 0, 0, 7, 0, 0, 0, 4,
    0, 0, 0, 0x40, 0, 0, 0, 0, 0, 0, 0, 0, 0, 0, 0, 0, 0, 0, 0, 0x50, 0, 0, 0, 0, 0, 0, 0, 0x30, 0,
    0, 0, 0, 0, 0, 0, 3, 0, 0, 0, 1, 0, 0, 0, 8, 0, 0, 0, 0, 0, 0, 0, 0x18, 0, 0, 0, 0, 0, 0, 0,
    0x12, 0, 0, 0, 2, 0, 0, 0, 0, 0, 0, 0, 0, 0, 0, 0, 0, 0, 0, 0, 0, 0, 0, 0, 0x80, 0, 0, 0, 0, 0,
    0, 0, 0x48, 0, 0, 0, 0, 0, 0, 0, 4, 0, 0, 0, 1, 0, 0, 0, 8, 0, 0, 0, 0, 0, 0, 0, 0x18, 0, 0, 0,
    0, 0, 0, 0, 0x1a, 0, 0, 0, 3, 0, 0, 0, 0, 0, 0, 0, 0, 0, 0, 0, 0, 0, 0, 0, 0, 0, 0, 0, 0xc8, 0,
    0, 0, 0, 0, 0, 0, 0x0a, 0, 0, 0, 0, 0, 0, 0, 0, 0, 0, 0, 0, 0, 0, 0, 1, 0, 0, 0, 0, 0, 0, 0, 0,
    0, 0, 0, 0, 0, 0, 0, 0x22, 0, 0, 0, 3, 0, 0, 0, 0, 0, 0, 0, 0, 0, 0, 0, 0, 0, 0, 0, 0, 0, 0, 0,
    0xd2, 0, 0, 0, 0, 0, 0, 0, 0x2c, 0, 0, 0, 0, 0, 0, 0, 0, 0, 0, 0, 0, 0, 0, 0, 1, 0, 0, 0, 0, 0,
    0, 0, 0, 0, 0, 0, 0, 0, 0, 0,
];

/// Places in it: of both relocations the type and the symbol, of both symbols the binding with the type and
/// the section, a letter of the name `_start`, and the first number of a symbol that is not LOCAL.
const FIRST_TYPE: usize = 88;

const FIRST_SYMBOL: usize = 92;

const SECOND_TYPE: usize = 112;

const SECOND_SYMBOL: usize = 116;

const START_INFO: usize = 156;

const START_SECTION: usize = 158;

const F_INFO: usize = 180;

const F_SECTION: usize = 182;

const START_LETTER: usize = 202;

const FIRST_GLOBAL: usize = 492;

/// Another byte at a place.
type Change = (usize, u8);

/// The first relocation goes to a LOCAL symbol that the table of symbols holds, section 3.
const LOCAL_IN_TABLE: [Change; 5] = [
    (START_INFO, 0x02),
    (START_SECTION, 3),
    (FIRST_GLOBAL, 2),
    (F_SECTION, 1),
    (FIRST_SYMBOL, 1),
];

/// So it does, and the code is the read-only `.eh_frame`, whose name is in place of that of section 5.
const LOCAL_IN_TABLE_FROM_FRAME: [Change; 15] = [
    (START_INFO, 0x02),
    (START_SECTION, 3),
    (FIRST_GLOBAL, 2),
    (F_SECTION, 1),
    (FIRST_SYMBOL, 1),
    (245, b'e'),
    (246, b'h'),
    (247, b'_'),
    (248, b'f'),
    (249, b'r'),
    (250, b'a'),
    (251, b'm'),
    (252, b'e'),
    (320, 0x22),
    (328, 2),
];

/// The object with these changes.
fn changed(changes: &[Change]) -> [u8; 640] {
    let mut bytes = OBJECT;
    for (at, byte) in changes {
        if *at < bytes.len() {
            bytes[*at] = *byte;
        }
    }
    bytes
}

/// It, as it is read.
fn read(alloc: Global, changes: &[Change]) -> Result<Object, Fail> {
    let bytes = Bytes::from_slice(alloc, changed(changes).as_slice())?;
    Ok(read_object(alloc, bytes).ok().ok_or("no object")?)
}

/// The paths `a.o` and `b.o`.
fn paths(alloc: Global) -> Result<NameList, NoMemory> {
    let mut paths = List::new(alloc);
    paths.push(Name::from_slice(alloc, b"a.o")?)?;
    paths.push(Name::from_slice(alloc, b"b.o")?)?;
    Ok(paths)
}

/// A resolver with an entry.
fn resolver(alloc: Global, entry: &[u8]) -> Result<Resolver, NoMemory> {
    let entry = Name::from_slice(alloc, entry)?;
    Resolver::new(alloc, &entry)
}

/// Gives a resolver these paths.
fn give_paths(alloc: Global, resolver: &mut Resolver) -> Result<(), NoMemory> {
    let paths = paths(alloc)?;
    resolver.with_paths(&paths)
}

/// A resolver with an entry and these paths, to which an input was added.
fn with_one(alloc: Global, entry: &[u8], input: &InputSummary) -> Result<Resolver, NoMemory> {
    let mut resolver = resolver(alloc, entry)?;
    give_paths(alloc, &mut resolver)?;
    resolver.add_input(0, input)?;
    Ok(resolver)
}

/// What the added inputs decide.
fn resolved(resolver: Resolver) -> Result<Resolution, Fail>
    ensures { IfOk result (λ resolution. 1 < length resolution.paths) }
{
    let resolution = resolver.settle().ok().ok_or("no resolution")?;
    if resolution.inputs() < 2 {
        return Err(Fail::from("no paths"));
    }
    Ok(resolution)
}

/// What two inputs decide.
fn together(alloc: Global, first: &InputSummary, second: &InputSummary) -> Result<Resolution, Fail>
    ensures { IfOk result (λ resolution. 1 < length resolution.paths) }
{
    let mut resolver = with_one(alloc, b"_start", first)?;
    resolver.add_input(1, second)?;
    resolved(resolver)
}

type Answer = Result<Scanned, ScanFailure>;

/// What a scan of an object answers in a link of its own.
fn scanned_alone(alloc: Global, object: &Object, entry: &[u8]) -> Result<Answer, Fail> {
    let resolution = resolved(with_one(alloc, entry, object.summary())?)?;
    Ok(scan(alloc, object, 0, &resolution))
}

/// What it answers of the changed object.
fn scanned(alloc: Global, changes: &[Change], entry: &[u8]) -> Result<Answer, Fail> {
    let object = read(alloc, changes)?;
    scanned_alone(alloc, &object, entry)
}

/// Scans two objects.
fn add_both(
    link: &mut LinkScan,
    first: &Object,
    second: &Object,
    resolution: &Resolution,
    meanings: &NameMeanings,
) -> Result<(), NoMemory>
    requires paths { 1 < length resolution.now.paths }
    requires meanings { meanings.now ≡ meanings_of resolution.now.rows }
{
    link.add(first, 0, resolution, meanings)?;
    link.add(second, 1, resolution, meanings)
}

/// What the scan of a link of two objects answers, of which this is decided.
fn both_scanned(
    alloc: Global,
    first: &Object,
    second: &Object,
    resolution: &Resolution,
) -> Result<Answer, Fail>
    requires { 1 < length resolution.now.paths }
{
    let meanings = NameMeanings::of(alloc, resolution.names())?;
    let mut link = LinkScan::new(alloc);
    add_both(&mut link, first, second, resolution, &meanings)?;
    Ok(link.finish())
}

/// What it answers.
fn linked_both(alloc: Global, first: &Object, second: &Object) -> Result<Answer, Fail> {
    let resolution = together(alloc, first.summary(), second.summary())?;
    both_scanned(alloc, first, second, &resolution)
}

/// What it answers where the second is a changed object.
fn linked_with(alloc: Global, first: &Object, second: &[Change]) -> Result<Answer, Fail> {
    let second = read(alloc, second)?;
    linked_both(alloc, first, &second)
}

/// What it answers where both are changed objects.
fn linked(alloc: Global, first: &[Change], second: &[Change]) -> Result<Answer, Fail> {
    let first = read(alloc, first)?;
    linked_with(alloc, &first, second)
}

/// A place in the code of the first input.
fn site(alloc: Global, offset: u64) -> Result<Site, NoMemory> {
    Ok(Site {
        path: Name::from_slice(alloc, b"a.o")?,
        section: 1,
        offset,
    })
}

/// The failure of one fault.
fn only(alloc: Global, fault: Fault) -> Result<ScanFailure, NoMemory> {
    let mut faults = List::new(alloc);
    faults.push(fault)?;
    Ok(ScanFailure::Faults(faults))
}

/// That `f` is undefined, as its first site reports.
fn undefined(alloc: Global) -> Result<ScanFailure, NoMemory> {
    let name = Name::from_slice(alloc, b"f")?;
    let site = site(alloc, 1)?;
    only(alloc, Fault::Undefined { name, site })
}

/// That the first relocation goes to a LOCAL symbol that is not linked.
fn dropped(alloc: Global) -> Result<ScanFailure, NoMemory> {
    let site = site(alloc, 1)?;
    only(alloc, Fault::DroppedLocal { site })
}

/// Whether there is one slot, which holds the address that the name of a number has.
fn has_one_slot(scanned: &Scanned, number: u32) -> bool {
    match scanned.needs.got.as_slice() {
        [slot] => slot.owner == GotOwner::Global(number) && !slot.thread,
        _ => false,
    }
}

/// Whether nothing is needed.
fn needs_nothing(scanned: &Scanned) -> bool {
    let needs = &scanned.needs;
    needs.got.as_slice().is_empty()
        && needs.plt.as_slice().is_empty()
        && needs.address.as_slice().is_empty()
        && needs.copies.as_slice().is_empty()
}

/// The symbol `f` of a shared object, a function.
fn function(alloc: Global) -> Result<Symbol, NoMemory> {
    Ok(Symbol {
        symbol: 1,
        name: Name::from_slice(alloc, b"f")?,
        binding: 1,
        code: 2,
        visibility: 0,
        home: Home::Shared,
        value: 0x1000,
        size: 1,
    })
}

/// A shared object that defines it.
fn shared(alloc: Global) -> Result<InputSummary, NoMemory> {
    let mut globals = List::new(alloc);
    globals.push(function(alloc)?)?;
    Ok(InputSummary {
        kind: Kind::Shared,
        soname: Name::empty(),
        exec_stack: false,
        pieces: List::new(alloc),
        globals,
        groups: List::new(alloc),
    })
}

/// What a scan of an object answers in a link with the shared one.
fn scanned_with_shared(alloc: Global, object: &Object) -> Result<Answer, Fail> {
    let shared = shared(alloc)?;
    let resolution = together(alloc, object.summary(), &shared)?;
    Ok(scan(alloc, object, 0, &resolution))
}

/// What it answers of the object as it is.
fn with_shared(alloc: Global) -> Result<Answer, Fail> {
    let object = read(alloc, &[])?;
    scanned_with_shared(alloc, &object)
}

#[test]
fn a_name_that_is_undefined_at_two_sites_is_reported_at_the_first(
    rt: HostRuntime,
) -> Result<(), Fail> {
    let answer = scanned(rt.alloc(), &[], b"_start")?;
    assert_eq!(rt; answer.err(), Some(undefined(rt.alloc())?));
    Ok(())
}

#[test]
fn a_weak_reference_may_go_nowhere(rt: HostRuntime) -> Result<(), Fail> {
    let answer = scanned(rt.alloc(), &[(F_INFO, 0x20)], b"_start")?;
    let scanned = answer.ok().ok_or("faults")?;
    let references = scanned.references.as_slice();
    assert_eq!(rt; references.len(), 2);
    assert!(rt; references.iter().all(|r| r.weak && r.addend == -4));
    Ok(())
}

#[test]
fn a_slot_that_is_needed_twice_is_at_once(rt: HostRuntime) -> Result<(), Fail> {
    let changes = [
        (FIRST_TYPE, 9),
        (FIRST_SYMBOL, 1),
        (SECOND_TYPE, 9),
        (SECOND_SYMBOL, 1),
    ];
    let answer = scanned(rt.alloc(), &changes, b"_start")?;
    let scanned = answer.ok().ok_or("faults")?;
    assert!(rt; has_one_slot(&scanned, 0));
    Ok(())
}

#[test]
fn a_call_of_a_defined_name_needs_nothing(rt: HostRuntime) -> Result<(), Fail> {
    let changes = [(FIRST_SYMBOL, 1), (SECOND_SYMBOL, 1)];
    let answer = scanned(rt.alloc(), &changes, b"_start")?;
    let scanned = answer.ok().ok_or("faults")?;
    assert!(rt; needs_nothing(&scanned));
    Ok(())
}

#[test]
fn an_imported_function_has_one_entry(rt: HostRuntime) -> Result<(), Fail> {
    let scanned = with_shared(rt.alloc())?.ok().ok_or("faults")?;
    assert_eq!(rt; scanned.needs.plt.as_slice(), [1].as_slice());
    assert_eq!(rt; scanned.needs.address.as_slice(), [1].as_slice());
    Ok(())
}

#[test]
fn a_local_symbol_of_a_section_that_is_not_linked_is_reported(rt: HostRuntime) -> Result<(), Fail> {
    let answer = scanned(rt.alloc(), &LOCAL_IN_TABLE, b"f")?;
    assert_eq!(rt; answer.err(), Some(dropped(rt.alloc())?));
    Ok(())
}

#[test]
fn a_frame_may_go_to_a_section_that_is_not_linked(rt: HostRuntime) -> Result<(), Fail> {
    let answer = scanned(rt.alloc(), &LOCAL_IN_TABLE_FROM_FRAME, b"f")?;
    assert!(rt; answer.is_ok());
    Ok(())
}

#[test]
fn a_link_reports_a_name_of_two_objects_once(rt: HostRuntime) -> Result<(), Fail> {
    let answer = linked(rt.alloc(), &[], &[(START_LETTER, b'x')])?;
    assert_eq!(rt; answer.err(), Some(undefined(rt.alloc())?));
    Ok(())
}

#[test]
fn a_link_needs_a_slot_of_two_objects_once(rt: HostRuntime) -> Result<(), Fail> {
    let first = [(FIRST_TYPE, 9), (SECOND_TYPE, 9), (F_INFO, 0x20)];
    let second = [
        (FIRST_TYPE, 9),
        (SECOND_TYPE, 9),
        (F_INFO, 0x20),
        (START_LETTER, b'x'),
    ];
    let scanned = linked(rt.alloc(), &first, &second)?.ok().ok_or("faults")?;
    assert!(rt; has_one_slot(&scanned, 1));
    assert_eq!(rt; scanned.references.as_slice().len(), 4);
    Ok(())
}

//! Keys of input sections, what they say, and their order.

use lk_elf::numbers::{
    SHF_ALLOC, SHF_EXECINSTR, SHF_TLS, SHF_WRITE, SHT_NOBITS, SHT_NOTE, SHT_PROGBITS,
};
use lk_model::layouts::{Class, FillKind, SectionKey, SectionKeyList};
use lk_outsec::{fill_kind, in_order, is_patched, key_for};
use lk_report::{List, Name, NoMemory};
use std::alloc::Global;

/// The key of a name and a class.
fn named(alloc: Global, name: &[u8], class: Class) -> Result<SectionKey, NoMemory> {
    let name = Name::from_slice(alloc, name)?;
    Ok(SectionKey { name, class })
}

/// The keys of names and classes.
fn all_named(alloc: Global, rows: &[(&[u8], Class)]) -> Result<SectionKeyList, NoMemory> {
    let mut keys = List::new(alloc);
    for row in rows {
        keys.push(named(alloc, row.0, row.1)?)?;
    }
    Ok(keys)
}

/// The output section of an input section.
fn key(alloc: Global, name: &[u8], code: u32, flags: u64) -> Result<Option<SectionKey>, NoMemory> {
    key_for(alloc, &Name::from_slice(alloc, name)?, code, flags)
}

/// Whether the output section of an input section is the one of this name and class.
fn goes_to(found: Result<Option<SectionKey>, NoMemory>, name: &[u8], class: Class) -> bool {
    match found {
        Ok(Some(key)) => key.name.as_slice() == name && key.class == class,
        Ok(None) | Err(_) => false,
    }
}

/// Whether an input section is not linked.
fn goes_nowhere(found: Result<Option<SectionKey>, NoMemory>) -> bool {
    match found {
        Ok(found) => found.is_none(),
        Err(_) => false,
    }
}

/// The name, type and flags of a section, and the name and class of its output section.
type Going = (&'static [u8], u32, u64, &'static [u8], Class);

const GOINGS: [Going; 4] = [
    (
        b".text.unlikely",
        SHT_PROGBITS,
        SHF_ALLOC + SHF_EXECINSTR,
        b".text",
        Class::X,
    ),
    (
        b".text.",
        SHT_PROGBITS,
        SHF_ALLOC + SHF_EXECINSTR + SHF_WRITE,
        b".text.",
        Class::WX,
    ),
    (
        b".tbss.x",
        SHT_NOBITS,
        SHF_ALLOC + SHF_WRITE + SHF_TLS,
        b".tbss",
        Class::Tbss,
    ),
    (
        b".note.gnu.build-id",
        SHT_NOTE,
        SHF_ALLOC,
        b".note.gnu.build-id",
        Class::R,
    ),
];

#[test]
fn input_sections_have_output_sections(rt: HostRuntime) {
    for (name, code, flags, wanted, class) in GOINGS {
        assert!(rt; goes_to(key(rt.alloc(), name, code, flags), wanted, class));
    }
}

#[test]
fn notes_for_linkers_go_nowhere(rt: HostRuntime) {
    let property = key(rt.alloc(), b".note.gnu.property", SHT_NOTE, SHF_ALLOC);
    assert!(rt; goes_nowhere(property));
    let stack = key(rt.alloc(), b".note.GNU-stack", SHT_PROGBITS, 0);
    assert!(rt; goes_nowhere(stack));
}

/// Whether the section of this name and class is patched, and what fills its holes.
fn says(alloc: Global, name: &[u8], class: Class) -> Result<(bool, FillKind), NoMemory> {
    let key = named(alloc, name, class)?;
    Ok((is_patched(&key), fill_kind(&key)))
}

#[test]
fn keys_say_what_is_patched_and_what_fills_holes(rt: HostRuntime) {
    let cases: [(&[u8], Class, bool, FillKind); 4] = [
        (b".eh_frame", Class::R, true, FillKind::Frame),
        (b".text", Class::X, true, FillKind::Trap),
        (b".debug_info", Class::N, true, FillKind::Unit),
        (b".init_array", Class::W, false, FillKind::Zero),
    ];
    for (name, class, patched, fill) in cases {
        assert_eq!(rt; says(rt.alloc(), name, class), Ok((patched, fill)));
    }
}

/// The keys of names and classes, in the order of the image.
fn ordered(alloc: Global, rows: &[(&[u8], Class)]) -> Result<SectionKeyList, NoMemory> {
    let keys = all_named(alloc, rows)?;
    in_order(alloc, &keys)
}

#[test]
fn keys_are_at_in_the_order_of_the_image(rt: HostRuntime) -> Result<(), NoMemory> {
    let keys: [(&[u8], Class); 6] = [
        (b".comment", Class::N),
        (b".bss", Class::Bss),
        (b".text", Class::X),
        (b".note.b", Class::R),
        (b".note.a", Class::R),
        (b".got", Class::W),
    ];
    let wanted: [(&[u8], Class); 6] = [
        (b".note.b", Class::R),
        (b".note.a", Class::R),
        (b".text", Class::X),
        (b".got", Class::W),
        (b".bss", Class::Bss),
        (b".comment", Class::N),
    ];
    let ordered = ordered(rt.alloc(), &keys)?;
    assert_eq!(rt; ordered, all_named(rt.alloc(), &wanted)?);
    Ok(())
}

/// Two keys, so many times.
fn many(alloc: Global, count: u32) -> Result<SectionKeyList, NoMemory> {
    let mut keys: SectionKeyList = List::new(alloc);
    for _ in 0..count {
        keys.push(named(alloc, b".debug_info", Class::N)?)?;
        keys.push(named(alloc, b".text", Class::X)?)?;
    }
    Ok(keys)
}

#[test]
fn sixty_thousand_keys_are_put_in_order(rt: HostRuntime) -> Result<(), NoMemory> {
    let keys = many(rt.alloc(), 30_000)?;
    let ordered = in_order(rt.alloc(), &keys)?;
    let ordered = ordered.as_slice();
    assert_eq!(rt; ordered.len(), 60_000);
    assert!(rt; ordered.iter().take(30_000).all(|key| key.class == Class::X));
    assert!(rt; ordered.iter().skip(30_000).all(|key| key.class == Class::N));
    Ok(())
}

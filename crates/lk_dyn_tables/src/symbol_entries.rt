//! The entries of symbol tables (gABI "Symbol Table"), each by what its name means.

ghost use Rattle.std.specs.Prelude.{◌≡◌, ◌++◌, ◌%◌, ◌^◌, OnOk};
ghost use Rattle.lk_elf.specs.Records.{sym_bytes};
ghost use Rattle.lk_model.specs.SymbolEntries.{symbol_info};
ghost use Rattle.lk_dyn_tables.specs.SymbolEntries.{as_sym, common_of, copy_of, definition_of, imported_of, made_of, undefined_of};

use crate::symbol_places::SymbolPlaces;
use lk_dyn::put_symbol;
use lk_elf::Sym;
use lk_elf::numbers::{SHN_ABS, SHN_UNDEF, STB_GLOBAL, STT_NOTYPE, STT_OBJECT};
use lk_model::layouts::PieceId;
use lk_model::summaries::Global as Symbol;
use lk_report::NoMemory;

/// What a name alone decides of its entry.
#[derive(Clone, Copy)]
pub(crate) struct NameFields {
    /// Where the name is in the string table, in bytes.
    pub(crate) text: u64,
    pub(crate) visibility: u32,
    /// The symbol's value, by its low 64 bits.
    pub(crate) value: u64,
}

/// An entry of a symbol table (gABI "Symbol Table", Elf64_Sym), whose fields have the low bits of these numbers.
#[derive(Clone, Copy)]
pub(crate) struct SymbolEntry {
    /// Where the name is in the string table, in bytes.
    pub(crate) text: u64,
    pub(crate) binding: u32,
    /// The type.
    pub(crate) code: u32,
    pub(crate) visibility: u32,
    pub(crate) shndx: u64,
    pub(crate) value: u64,
    /// The size in bytes.
    pub(crate) size: u64,
}

/// The null symbol, which is entry 0 of each table.
pub(crate) const NULL_ENTRY: SymbolEntry = SymbolEntry {
    text: 0,
    binding: 0,
    code: 0,
    visibility: 0,
    shndx: 0,
    value: 0,
    size: 0,
};

/// What a field of one byte has of a number.
fn low_byte(n: u64) -> u8
    ensures { result ≡ n % 2 ^ 8 }
{
    (n % 0x100) as u8
}

/// What a field of two bytes has of a number.
fn low_half(n: u64) -> u16
    ensures { result ≡ n % 2 ^ 16 }
{
    (n % 0x1_0000) as u16
}

/// What a field of four bytes has of a number.
fn low_word(n: u64) -> u32
    ensures { result ≡ n % 2 ^ 32 }
{
    (n % 0x1_0000_0000) as u32
}

/// Binding and type in one number (gABI "Symbol Table", st_info).
fn symbol_info(binding: u32, code: u32) -> u64
    ensures { result ≡ symbol_info binding code }
{
    16 * u64::from(binding) + u64::from(code)
}

/// An entry with its fields at their widths.
fn symbol_of(entry: &SymbolEntry) -> Sym
    ensures { sym_bytes result ≡ sym_bytes (as_sym entry.now) }
{
    let info = symbol_info(entry.binding, entry.code);
    Sym {
        st_name: low_word(entry.text),
        st_info: low_byte(info),
        st_other: low_byte(u64::from(entry.visibility)),
        st_shndx: low_half(entry.shndx),
        st_value: entry.value,
        st_size: entry.size,
    }
}

/// Puts an entry at the end.
pub(crate) fn put_entry(out: &mut Vec<u8>, entry: &SymbolEntry) -> Result<(), NoMemory>
    ensures { OnOk result (out.new.items ≡ out.old.items ++ sym_bytes (as_sym entry.now)) }
{
    put_symbol(out, &symbol_of(entry))
}

/// The entry of a definition in an input.
pub(crate) fn definition_entry(
    places: &SymbolPlaces<'_>,
    name: NameFields,
    input: u32,
    global: &Symbol,
) -> SymbolEntry
    ensures { result ≡ definition_of places.now name input global.now }
{
    SymbolEntry {
        text: name.text,
        binding: global.binding,
        code: global.code,
        visibility: name.visibility,
        shndx: places.home_number(input, global.home),
        value: places.tabled_value(global.code, name.value),
        size: global.size,
    }
}

/// The entry of a common block, which is a GLOBAL variable.
pub(crate) fn common_entry(
    places: &SymbolPlaces<'_>,
    name: NameFields,
    number: u32,
    size: u64,
) -> SymbolEntry
    ensures { result ≡ common_of places.now name number size }
{
    SymbolEntry {
        text: name.text,
        binding: u32::from(STB_GLOBAL),
        code: u32::from(STT_OBJECT),
        visibility: name.visibility,
        shndx: places.header_number(PieceId::Common { name: number }),
        value: name.value,
        size,
    }
}

/// The entry in `.dynsym` of an import that is copied: it is defined in this image, with the import's size and type.
pub(crate) fn copy_entry(
    places: &SymbolPlaces<'_>,
    text: u64,
    binding: u32,
    number: u32,
    global: &Symbol,
) -> SymbolEntry
    ensures { result ≡ copy_of places.now text binding number global.now }
{
    let copy = PieceId::Copy { name: number };
    SymbolEntry {
        text,
        binding,
        code: global.code,
        visibility: 0,
        shndx: places.header_number(copy),
        value: places.address(copy),
        size: global.size,
    }
}

/// The entry in `.dynsym` of any other import: it is undefined here. `value` is the address of its PLT entry where
/// that is the function's address, else 0 (psABI x86-64 "Function Addresses").
pub(crate) fn undefined_entry(text: u64, binding: u32, value: u64, global: &Symbol) -> SymbolEntry
    ensures { result ≡ undefined_of text binding value global.now }
{
    SymbolEntry {
        text,
        binding,
        code: global.code,
        visibility: 0,
        shndx: u64::from(SHN_UNDEF),
        value,
        size: 0,
    }
}

/// The entry in `.symtab` of an import with this section number and this value; the rest is as its shared object
/// has it.
pub(crate) fn imported_entry(
    name: NameFields,
    shndx: u64,
    value: u64,
    global: &Symbol,
) -> SymbolEntry
    ensures { result ≡ imported_of name shndx value global.now }
{
    SymbolEntry {
        text: name.text,
        binding: global.binding,
        code: global.code,
        visibility: name.visibility,
        shndx,
        value,
        size: global.size,
    }
}

/// The entry in `.symtab` of a symbol that the linker makes: an absolute value.
pub(crate) fn made_entry(name: NameFields) -> SymbolEntry
    ensures { result ≡ made_of name }
{
    SymbolEntry {
        text: name.text,
        binding: u32::from(STB_GLOBAL),
        code: u32::from(STT_NOTYPE),
        visibility: name.visibility,
        shndx: u64::from(SHN_ABS),
        value: name.value,
        size: 0,
    }
}

//! Objects that are made by hand: sections, symbols and relocations become the bytes of a file (gABI "Object
//! Files").
//!
//! The file has its header, the bytes of the sections, and the section headers at its end. Section 0 is null; the
//! parts come next, then the relocations of part 1, `.symtab`, `.strtab` and `.shstrtab`.

use lk_report::Bytes;
use std::alloc::Global;
use std::test::Fail;

/// A section of an object.
#[derive(Clone, Copy)]
pub struct Part {
    /// Its name.
    pub name: &'static [u8],
    /// Its type and its flags (gABI "Sections").
    pub kind: u64,
    pub flags: u64,
    /// Its bytes, and its size, which is theirs but in a section of zeros.
    pub bytes: &'static [u8],
    pub size: u64,
    /// Its alignment.
    pub align: u64,
}

/// A symbol that is not LOCAL.
#[derive(Clone, Copy)]
pub struct Symbol {
    /// Its name.
    pub name: &'static [u8],
    /// Its binding times 16 and its type.
    pub info: u64,
    /// The number of its section, 0 where it is undefined.
    pub section: u64,
    /// Its value, the alignment of a common block, and its size.
    pub value: u64,
    pub size: u64,
}

/// A relocation of part 1: where, of which type, to which symbol (from 1), with which addend.
#[derive(Clone, Copy)]
pub struct Relocation {
    pub offset: u64,
    pub code: u64,
    pub symbol: u64,
    pub addend: i64,
}

/// The binding of a strong function and of a weak one, with the type.
pub const STRONG: u64 = 0x12;

pub const WEAK: u64 = 0x22;

/// The section of an undefined symbol, of one with an absolute value, and of a common block.
pub const UNDEFINED: u64 = 0;

pub const ABSOLUTE: u64 = 0xfff1;

pub const COMMON: u64 = 0xfff2;

/// The types R_X86_64_64 and R_X86_64_PC32 (psABI "Relocation Types").
pub const ABS64: u64 = 1;

pub const PC32: u64 = 2;

/// The size of a file's header and of a section's.
const HEADER: u64 = 64;

/// A `.text` of these bytes, aligned to 16.
pub fn code(bytes: &'static [u8]) -> Part {
    Part {
        name: b".text",
        kind: 1,
        flags: 6,
        bytes,
        size: bytes.len() as u64,
        align: 16,
    }
}

/// A `.bss` of so many zeros.
pub fn zeros(size: u64) -> Part {
    Part {
        name: b".bss",
        kind: 8,
        flags: 3,
        bytes: b"",
        size,
        align: 1,
    }
}

/// The file as far as it is made.
#[derive(Drop)]
struct Maker {
    alloc: Global,
    /// The bytes of the sections, each at a multiple of 8.
    bodies: Vec<u8>,
    /// The section headers.
    headers: Vec<u8>,
    /// The names of the sections.
    names: Vec<u8>,
}

/// Puts words of eight bytes at the end.
fn put_words(out: &mut Vec<u8>, words: &[u64]) -> Result<(), Fail> {
    for word in words {
        out.extend_from_slice(word.to_le_bytes().as_slice())?;
    }
    Ok(())
}

/// Puts a text at the end, with the zero that ends it, and gives where it begins.
fn put_text(out: &mut Vec<u8>, text: &[u8]) -> Result<u64, Fail> {
    let at = out.len() as u64;
    out.extend_from_slice(text)?;
    out.push(0)?;
    Ok(at)
}

/// Puts zeros at the end, up to a multiple of 8.
fn fill_up(out: &mut Vec<u8>) -> Result<(), Fail> {
    let end = out.len().div_ceil(8).saturating_mul(8);
    out.resize(end, 0)?;
    Ok(())
}

/// A number in the upper half of a word, and one in the lower.
fn both(low: u64, high: u64) -> u64 {
    low | high << 32
}

impl Maker {
    /// A file with the null section alone.
    fn new(alloc: Global) -> Result<Self, Fail> {
        let mut maker = Maker {
            alloc,
            bodies: Vec::new(alloc),
            headers: Vec::new(alloc),
            names: Vec::new(alloc),
        };
        maker.headers.resize(64, 0)?;
        maker.names.push(0)?;
        Ok(maker)
    }

    /// Adds a section: its name, its type, its flags, its bytes and their size, what it is linked to (`sh_link` and
    /// `sh_info`), its alignment, and the size of its entries.
    fn add(&mut self, part: &Part, bytes: &[u8], linked: u64, entry: u64) -> Result<(), Fail> {
        fill_up(&mut self.bodies)?;
        let at = HEADER.saturating_add(self.bodies.len() as u64);
        let name = put_text(&mut self.names, part.name)?;
        self.bodies.extend_from_slice(bytes)?;
        put_words(
            &mut self.headers,
            &[
                both(name, part.kind),
                part.flags,
                0,
                at,
                part.size,
                linked,
                part.align,
                entry,
            ],
        )
    }

    /// Adds a table: its name, its type, its bytes, what it is linked to, and the size of its entries.
    fn add_table(
        &mut self,
        name: &'static [u8],
        kind: u64,
        bytes: &[u8],
        linked: u64,
        entry: u64,
    ) -> Result<(), Fail> {
        let part = Part {
            name,
            kind,
            flags: 0,
            bytes: b"",
            size: bytes.len() as u64,
            align: 8,
        };
        self.add(&part, bytes, linked, entry)
    }

    /// Adds the names of the sections, its own too, as the last section.
    fn add_names(&mut self) -> Result<(), Fail> {
        let mut names = Vec::from_slice(self.alloc, self.names.as_slice())?;
        let _at = put_text(&mut names, b".shstrtab")?;
        self.add_table(b".shstrtab", 3, names.as_slice(), 0, 0)
    }

    /// The whole file.
    fn file(mut self) -> Result<Bytes, Fail> {
        fill_up(&mut self.bodies)?;
        let at = HEADER.saturating_add(self.bodies.len() as u64);
        let count = (self.headers.len() as u64) / HEADER;
        let mut file = Vec::new(self.alloc);
        put_words(&mut file, &file_header(at, count))?;
        file.extend_from_slice(self.bodies.as_slice())?;
        file.extend_from_slice(self.headers.as_slice())?;
        Ok(Bytes::from_vec(file)?)
    }
}

/// The header of a file whose section headers are there, so many, of which the last has the names (gABI "ELF
/// Header").
fn file_header(at: u64, count: u64) -> [u64; 8] {
    let last = count.saturating_sub(1);
    [
        0x0001_0102_464c_457f,
        0,
        0x1_003e_0001,
        0,
        0,
        at,
        HEADER << 32,
        HEADER << 16 | count << 32 | last << 48,
    ]
}

/// The symbol table, and the names of the symbols (gABI "Symbol Table").
fn symbol_tables(alloc: Global, symbols: &[Symbol]) -> Result<(Vec<u8>, Vec<u8>), Fail> {
    let mut table = Vec::new(alloc);
    let mut names = Vec::new(alloc);
    put_words(&mut table, &[0, 0, 0])?;
    names.push(0)?;
    for symbol in symbols {
        let name = put_text(&mut names, symbol.name)?;
        let head = name | symbol.info << 32 | symbol.section << 48;
        put_words(&mut table, &[head, symbol.value, symbol.size])?;
    }
    Ok((table, names))
}

/// The relocations (gABI "Relocation").
fn relocation_table(alloc: Global, relocations: &[Relocation]) -> Result<Vec<u8>, Fail> {
    let mut table = Vec::new(alloc);
    for one in relocations {
        put_words(
            &mut table,
            &[
                one.offset,
                both(one.code, one.symbol),
                one.addend.cast_unsigned(),
            ],
        )?;
    }
    Ok(table)
}

/// A function of this name, which is the whole of part 1.
pub fn function(name: &'static [u8]) -> Symbol {
    Symbol {
        name,
        info: STRONG,
        section: 1,
        value: 0,
        size: 16,
    }
}

/// A name that is used and not defined.
pub fn undefined(name: &'static [u8]) -> Symbol {
    Symbol {
        name,
        info: 0x10,
        section: UNDEFINED,
        value: 0,
        size: 0,
    }
}

/// A common block of this alignment and size, in bytes.
pub fn common(name: &'static [u8], align: u64, size: u64) -> Symbol {
    Symbol {
        name,
        info: 0x11,
        section: COMMON,
        value: align,
        size,
    }
}

/// An object with a function of 16 bytes of code, and the distance to a name in its bytes 5 to 8.
pub fn caller(
    alloc: Global,
    bytes: &'static [u8],
    name: &'static [u8],
    wanted: Symbol,
) -> Result<Bytes, Fail> {
    let distance = Relocation {
        offset: 5,
        code: PC32,
        symbol: 2,
        addend: -4,
    };
    object(
        alloc,
        &[code(bytes)],
        &[function(name), wanted],
        &[distance],
    )
}

/// An object with a function of this code, which wants nothing.
pub fn leaf(alloc: Global, bytes: &'static [u8], name: &'static [u8]) -> Result<Bytes, Fail> {
    object(alloc, &[code(bytes)], &[function(name)], &[])
}

/// The file with another byte at a place, if it is so long.
pub fn changed(alloc: Global, file: &Bytes, at: usize, byte: u8) -> Result<Bytes, Fail> {
    let mut bytes = Vec::from_slice(alloc, file.as_slice())?;
    if at < bytes.len() {
        bytes[at] = byte;
    }
    Ok(Bytes::from_vec(bytes)?)
}

/// The file without its last byte.
pub fn cut(alloc: Global, file: &Bytes) -> Result<Bytes, Fail> {
    let mut bytes = Vec::from_slice(alloc, file.as_slice())?;
    let _last = bytes.pop();
    Ok(Bytes::from_vec(bytes)?)
}

/// An object of these parts, symbols, and relocations of part 1.
pub fn object(
    alloc: Global,
    parts: &[Part],
    symbols: &[Symbol],
    relocations: &[Relocation],
) -> Result<Bytes, Fail> {
    let mut maker = Maker::new(alloc)?;
    for part in parts {
        maker.add(part, part.bytes, 0, 0)?;
    }
    add_tables(&mut maker, parts.len() as u64, symbols, relocations)?;
    maker.file()
}

/// Adds the tables behind so many parts.
fn add_tables(
    maker: &mut Maker,
    parts: u64,
    symbols: &[Symbol],
    relocations: &[Relocation],
) -> Result<(), Fail> {
    let relocations = relocation_table(maker.alloc, relocations)?;
    let (table, names) = symbol_tables(maker.alloc, symbols)?;
    let at = parts.saturating_add(2);
    maker.add_table(b".rela.text", 4, relocations.as_slice(), both(at, 1), 24)?;
    maker.add_table(
        b".symtab",
        2,
        table.as_slice(),
        both(at.saturating_add(1), 1),
        24,
    )?;
    maker.add_table(b".strtab", 3, names.as_slice(), 0, 0)?;
    maker.add_names()
}

// The numbers of ELF64 by name, as the gABI and the x86-64 psABI give them, each of its field's type.

/// The four bytes with which a file of this format begins (gABI "ELF Identification").
pub const ELFMAG: [u8; 4] = [0x7f, b'E', b'L', b'F'];

/// The place in `e_ident` of the file's class (gABI "ELF Identification").
pub const EI_CLASS: usize = 4;

/// The place in `e_ident` of the byte order (gABI "ELF Identification").
pub const EI_DATA: usize = 5;

/// The place in `e_ident` of the version of the format (gABI "ELF Identification").
pub const EI_VERSION: usize = 6;

/// The length of `e_ident` in bytes (gABI "ELF Identification").
pub const EI_NIDENT: usize = 16;

/// The class of a file with 64-bit objects (gABI "ELF Identification").
pub const ELFCLASS64: u8 = 2;

/// The byte order in which the lowest byte of a number is first (gABI "ELF Identification").
pub const ELFDATA2LSB: u8 = 1;

/// The version of the format (gABI "ELF Identification").
pub const EV_CURRENT: u8 = 1;

/// A relocatable object (gABI "ELF Header").
pub const ET_REL: u16 = 1;

/// An executable (gABI "ELF Header").
pub const ET_EXEC: u16 = 2;

/// A shared object (gABI "ELF Header").
pub const ET_DYN: u16 = 3;

/// The x86-64 machine (gABI "ELF Header").
pub const EM_X86_64: u16 = 62;

/// No section (gABI "Sections").
pub const SHT_NULL: u32 = 0;

/// Bytes of the program (gABI "Sections").
pub const SHT_PROGBITS: u32 = 1;

/// The symbol table (gABI "Sections").
pub const SHT_SYMTAB: u32 = 2;

/// A string table (gABI "Sections").
pub const SHT_STRTAB: u32 = 3;

/// Relocations with addends (gABI "Sections").
pub const SHT_RELA: u32 = 4;

/// The hash table of the dynamic symbols (gABI "Sections").
pub const SHT_HASH: u32 = 5;

/// The information for dynamic linking (gABI "Sections").
pub const SHT_DYNAMIC: u32 = 6;

/// Notes (gABI "Sections").
pub const SHT_NOTE: u32 = 7;

/// Zeros that the file does not hold (gABI "Sections").
pub const SHT_NOBITS: u32 = 8;

/// Relocations without addends (gABI "Sections").
pub const SHT_REL: u32 = 9;

/// The dynamic symbols (gABI "Sections").
pub const SHT_DYNSYM: u32 = 11;

/// Functions to be called at the start (gABI "Sections").
pub const SHT_INIT_ARRAY: u32 = 14;

/// Functions to be called at the end (gABI "Sections").
pub const SHT_FINI_ARRAY: u32 = 15;

/// Functions to be called before all others (gABI "Sections").
pub const SHT_PREINIT_ARRAY: u32 = 16;

/// A group of sections (gABI "Sections").
pub const SHT_GROUP: u32 = 17;

/// Section numbers that do not fit in a symbol (gABI "Sections").
pub const SHT_SYMTAB_SHNDX: u32 = 18;

/// Unwind tables (psABI x86-64 "Section Types").
pub const SHT_X86_64_UNWIND: u32 = 0x7000_0001;

/// The section can be written while the program runs (gABI "Sections").
pub const SHF_WRITE: u64 = 1;

/// The section takes memory while the program runs (gABI "Sections").
pub const SHF_ALLOC: u64 = 2;

/// The section holds instructions (gABI "Sections").
pub const SHF_EXECINSTR: u64 = 4;

/// Equal items of the section may be merged (gABI "Sections").
pub const SHF_MERGE: u64 = 0x10;

/// The section's items are strings (gABI "Sections").
pub const SHF_STRINGS: u64 = 0x20;

/// `sh_info` is a section number (gABI "Sections").
pub const SHF_INFO_LINK: u64 = 0x40;

/// The section's place follows the section that it links to (gABI "Sections").
pub const SHF_LINK_ORDER: u64 = 0x80;

/// The section is a member of a group (gABI "Sections").
pub const SHF_GROUP: u64 = 0x200;

/// The section holds thread-local data (gABI "Sections").
pub const SHF_TLS: u64 = 0x400;

/// The section's bytes are compressed (gABI "Sections").
pub const SHF_COMPRESSED: u64 = 0x800;

/// Known in its own file alone (gABI "Symbol Table").
pub const STB_LOCAL: u8 = 0;

/// Known in all files (gABI "Symbol Table").
pub const STB_GLOBAL: u8 = 1;

/// Known in all files, and gives way to a global symbol (gABI "Symbol Table").
pub const STB_WEAK: u8 = 2;

/// The type is not given (gABI "Symbol Table").
pub const STT_NOTYPE: u8 = 0;

/// A data object (gABI "Symbol Table").
pub const STT_OBJECT: u8 = 1;

/// A function (gABI "Symbol Table").
pub const STT_FUNC: u8 = 2;

/// A section (gABI "Symbol Table").
pub const STT_SECTION: u8 = 3;

/// The name of the source file (gABI "Symbol Table").
pub const STT_FILE: u8 = 4;

/// A common block (gABI "Symbol Table").
pub const STT_COMMON: u8 = 5;

/// A thread-local object (gABI "Symbol Table").
pub const STT_TLS: u8 = 6;

/// A function that gives the address of the function to be called (GNU gABI).
pub const STT_GNU_IFUNC: u8 = 10;

/// As the binding says (gABI "Symbol Table").
pub const STV_DEFAULT: u8 = 0;

/// Hidden, and called from its own component alone (gABI "Symbol Table").
pub const STV_INTERNAL: u8 = 1;

/// Not seen by other components (gABI "Symbol Table").
pub const STV_HIDDEN: u8 = 2;

/// Seen by other components, and not replaced by theirs (gABI "Symbol Table").
pub const STV_PROTECTED: u8 = 3;

/// No section: the symbol is not defined here (gABI "Sections").
pub const SHN_UNDEF: u16 = 0;

/// The symbol's value is absolute (gABI "Sections").
pub const SHN_ABS: u16 = 0xfff1;

/// A common symbol, whose value is its alignment (gABI "Sections").
pub const SHN_COMMON: u16 = 0xfff2;

/// The section number is in a section of type SHT_SYMTAB_SHNDX (gABI "Sections").
pub const SHN_XINDEX: u16 = 0xffff;

/// A part of the file that is loaded (gABI "Program Header").
pub const PT_LOAD: u32 = 1;

/// The information for dynamic linking (gABI "Program Header").
pub const PT_DYNAMIC: u32 = 2;

/// The path of the dynamic linker (gABI "Program Header").
pub const PT_INTERP: u32 = 3;

/// Notes (gABI "Program Header").
pub const PT_NOTE: u32 = 4;

/// The program headers themselves (gABI "Program Header").
pub const PT_PHDR: u32 = 6;

/// The start values of thread-local data (gABI "Program Header").
pub const PT_TLS: u32 = 7;

/// The rights of the stack (GNU gABI).
pub const PT_GNU_STACK: u32 = 0x6474_e551;

/// The segment can be executed (gABI "Program Header").
pub const PF_X: u32 = 1;

/// The segment can be written (gABI "Program Header").
pub const PF_W: u32 = 2;

/// The segment can be read (gABI "Program Header").
pub const PF_R: u32 = 4;

/// The end of the entries (gABI "Dynamic Section").
pub const DT_NULL: i64 = 0;

/// The name of a shared object that is needed (gABI "Dynamic Section").
pub const DT_NEEDED: i64 = 1;

/// The size in bytes of the relocations of the procedure linkage table (gABI "Dynamic Section").
pub const DT_PLTRELSZ: i64 = 2;

/// The address of the global offset table's part for procedures (gABI "Dynamic Section").
pub const DT_PLTGOT: i64 = 3;

/// The address of the hash table (gABI "Dynamic Section").
pub const DT_HASH: i64 = 4;

/// The address of the string table (gABI "Dynamic Section").
pub const DT_STRTAB: i64 = 5;

/// The address of the symbol table (gABI "Dynamic Section").
pub const DT_SYMTAB: i64 = 6;

/// The address of the relocations with addends (gABI "Dynamic Section").
pub const DT_RELA: i64 = 7;

/// The size in bytes of the relocations with addends (gABI "Dynamic Section").
pub const DT_RELASZ: i64 = 8;

/// The size in bytes of one relocation with an addend (gABI "Dynamic Section").
pub const DT_RELAENT: i64 = 9;

/// The size in bytes of the string table (gABI "Dynamic Section").
pub const DT_STRSZ: i64 = 10;

/// The size in bytes of one symbol (gABI "Dynamic Section").
pub const DT_SYMENT: i64 = 11;

/// The address of the function that is called at the start (gABI "Dynamic Section").
pub const DT_INIT: i64 = 12;

/// The address of the function that is called at the end (gABI "Dynamic Section").
pub const DT_FINI: i64 = 13;

/// The name of this shared object (gABI "Dynamic Section").
pub const DT_SONAME: i64 = 14;

/// The kind of the procedure linkage table's relocations (gABI "Dynamic Section").
pub const DT_PLTREL: i64 = 20;

/// A place for the debugger (gABI "Dynamic Section").
pub const DT_DEBUG: i64 = 21;

/// The address of the relocations of the procedure linkage table (gABI "Dynamic Section").
pub const DT_JMPREL: i64 = 23;

/// The address of the array of functions to be called at the start (gABI "Dynamic Section").
pub const DT_INIT_ARRAY: i64 = 25;

/// The address of the array of functions to be called at the end (gABI "Dynamic Section").
pub const DT_FINI_ARRAY: i64 = 26;

/// The size in bytes of the array of functions to be called at the start (gABI "Dynamic Section").
pub const DT_INIT_ARRAYSZ: i64 = 27;

/// The size in bytes of the array of functions to be called at the end (gABI "Dynamic Section").
pub const DT_FINI_ARRAYSZ: i64 = 28;

/// The folders in which needed shared objects are looked for (gABI "Dynamic Section").
pub const DT_RUNPATH: i64 = 29;

/// The address of the array of functions to be called before all others (gABI "Dynamic Section").
pub const DT_PREINIT_ARRAY: i64 = 32;

/// The size in bytes of the array of functions to be called before all others (gABI "Dynamic Section").
pub const DT_PREINIT_ARRAYSZ: i64 = 33;

/// The size in bytes of the header of a file (gABI).
pub const EHDR_SIZE: usize = 64;

/// The size in bytes of a section header (gABI).
pub const SHDR_SIZE: usize = 64;

/// The size in bytes of a program header (gABI).
pub const PHDR_SIZE: usize = 56;

/// The size in bytes of a symbol (gABI).
pub const SYM_SIZE: usize = 24;

/// The size in bytes of a relocation with an addend (gABI).
pub const RELA_SIZE: usize = 24;

/// The size in bytes of an entry of the dynamic section (gABI).
pub const DYN_SIZE: usize = 16;

// The header of a file (gABI "ELF Header").

ghost use Rattle.std.specs.Prelude.{◌≡◌, ◌+◌, ◌≤◌, ◌++◌, length, take, drop};
ghost use Rattle.lk_elf.specs.Reading.{Gives};
ghost use Rattle.lk_elf.specs.Records.{ehdr_at, ehdr_bytes};

use crate::fields::{ident_at, put_ident, put_u16, put_u32, put_u64, u16_at, u32_at, u64_at};
use crate::missing::{Short, find_room};
use crate::numbers::EHDR_SIZE;

/// The header of a file (gABI "ELF Header", Elf64_Ehdr).
#[derive(Clone, Copy, PartialEq, Eq, Debug)]
pub struct Ehdr {
    /// The identification: the magic bytes, class, byte order and version.
    pub e_ident: [u8; 16],
    /// What kind of file it is, as `ET_REL`.
    pub e_type: u16,
    /// The machine, as `EM_X86_64`.
    pub e_machine: u16,
    /// The version of the format.
    pub e_version: u32,
    /// The address where the program starts, or 0.
    pub e_entry: u64,
    /// Where the program headers are in the file, in bytes, or 0.
    pub e_phoff: u64,
    /// Where the section headers are in the file, in bytes, or 0.
    pub e_shoff: u64,
    /// Flags of the machine.
    pub e_flags: u32,
    /// The size of this header in bytes.
    pub e_ehsize: u16,
    /// The size of a program header in bytes.
    pub e_phentsize: u16,
    /// How many program headers there are.
    pub e_phnum: u16,
    /// The size of a section header in bytes.
    pub e_shentsize: u16,
    /// How many section headers there are.
    pub e_shnum: u16,
    /// The number of the section that holds the sections' names.
    pub e_shstrndx: u16,
}

impl Ehdr {
    /// Reads the header of a file from the 64 bytes at `at`, or reports that they are not all there. Takes no
    /// memory.
    pub fn read_at(bytes: &[u8], at: usize) -> Result<Ehdr, Short>
        ensures { Gives 64 bytes.now at (ehdr_at bytes.now at) result }
    {
        find_room(bytes, at, EHDR_SIZE)?;
        Ok(Ehdr::fields_at(bytes, at))
    }

    #[tactic(auto, unfolding(crate::specs::Records::ehdr_at))]
    fn fields_at(bytes: &[u8], at: usize) -> Ehdr
        requires { at + 64 ≤ length bytes.now }
        ensures { result ≡ ehdr_at bytes.now at }
    {
        Ehdr {
            e_ident: ident_at(bytes, at),
            e_type: u16_at(bytes, at + 16),
            e_machine: u16_at(bytes, at + 18),
            e_version: u32_at(bytes, at + 20),
            e_entry: u64_at(bytes, at + 24),
            e_phoff: u64_at(bytes, at + 32),
            e_shoff: u64_at(bytes, at + 40),
            e_flags: u32_at(bytes, at + 48),
            e_ehsize: u16_at(bytes, at + 52),
            e_phentsize: u16_at(bytes, at + 54),
            e_phnum: u16_at(bytes, at + 56),
            e_shentsize: u16_at(bytes, at + 58),
            e_shnum: u16_at(bytes, at + 60),
            e_shstrndx: u16_at(bytes, at + 62),
        }
    }

    /// Writes the 64 bytes of the header of a file at `at`, and leaves every other byte as it is. Takes no memory.
    pub fn write_at(&self, bytes: &mut [u8], at: usize)
        requires { at + 64 ≤ length bytes.old }
        ensures changes { bytes.new ≡ take at bytes.old ++ ehdr_bytes self.now ++ drop (at + 64) bytes.old }
        ensures reads_back { ehdr_at bytes.new at ≡ self.now }
    {
        put_ident(bytes, at, &self.e_ident);
        put_u16(bytes, at + 16, self.e_type);
        put_u16(bytes, at + 18, self.e_machine);
        put_u32(bytes, at + 20, self.e_version);
        put_u64(bytes, at + 24, self.e_entry);
        put_u64(bytes, at + 32, self.e_phoff);
        put_u64(bytes, at + 40, self.e_shoff);
        put_u32(bytes, at + 48, self.e_flags);
        put_u16(bytes, at + 52, self.e_ehsize);
        put_u16(bytes, at + 54, self.e_phentsize);
        put_u16(bytes, at + 56, self.e_phnum);
        put_u16(bytes, at + 58, self.e_shentsize);
        put_u16(bytes, at + 60, self.e_shnum);
        put_u16(bytes, at + 62, self.e_shstrndx);
    }
}

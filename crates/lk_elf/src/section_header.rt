// A section header (gABI "Sections").

ghost use Rattle.std.specs.Prelude.{◌≡◌, ◌+◌, ◌≤◌, ◌++◌, length, take, drop};
ghost use Rattle.lk_elf.specs.Reading.{Gives};
ghost use Rattle.lk_elf.specs.Records.{shdr_at, shdr_bytes};

use crate::fields::{put_u32, put_u64, u32_at, u64_at};
use crate::missing::{Short, find_room};
use crate::numbers::SHDR_SIZE;

/// A section header (gABI "Sections", Elf64_Shdr).
#[derive(Clone, Copy, PartialEq, Eq, Debug)]
pub struct Shdr {
    /// Where the name is in the sections' string table, in bytes.
    pub sh_name: u32,
    /// What the section holds, as `SHT_PROGBITS`.
    pub sh_type: u32,
    /// The section's flags, as `SHF_ALLOC`.
    pub sh_flags: u64,
    /// The address in memory, or 0.
    pub sh_addr: u64,
    /// Where the section is in the file, in bytes.
    pub sh_offset: u64,
    /// The size in bytes.
    pub sh_size: u64,
    /// The number of another section, whose meaning the type gives.
    pub sh_link: u32,
    /// A number whose meaning the type gives.
    pub sh_info: u32,
    /// The alignment in bytes; 0 and 1 ask for none.
    pub sh_addralign: u64,
    /// The size of an entry in bytes, or 0.
    pub sh_entsize: u64,
}

impl Shdr {
    /// Reads a section header from the 64 bytes at `at`, or reports that they are not all there. Takes no
    /// memory.
    pub fn read_at(bytes: &[u8], at: usize) -> Result<Shdr, Short>
        ensures { Gives 64 bytes.now at (shdr_at bytes.now at) result }
    {
        find_room(bytes, at, SHDR_SIZE)?;
        Ok(Shdr::fields_at(bytes, at))
    }

    #[tactic(auto, unfolding(crate::specs::Records::shdr_at))]
    fn fields_at(bytes: &[u8], at: usize) -> Shdr
        requires { at + 64 ≤ length bytes.now }
        ensures { result ≡ shdr_at bytes.now at }
    {
        Shdr {
            sh_name: u32_at(bytes, at),
            sh_type: u32_at(bytes, at + 4),
            sh_flags: u64_at(bytes, at + 8),
            sh_addr: u64_at(bytes, at + 16),
            sh_offset: u64_at(bytes, at + 24),
            sh_size: u64_at(bytes, at + 32),
            sh_link: u32_at(bytes, at + 40),
            sh_info: u32_at(bytes, at + 44),
            sh_addralign: u64_at(bytes, at + 48),
            sh_entsize: u64_at(bytes, at + 56),
        }
    }

    /// Writes the 64 bytes of a section header at `at`, and leaves every other byte as it is. Takes no memory.
    pub fn write_at(&self, bytes: &mut [u8], at: usize)
        requires { at + 64 ≤ length bytes.old }
        ensures changes { bytes.new ≡ take at bytes.old ++ shdr_bytes self.now ++ drop (at + 64) bytes.old }
        ensures reads_back { shdr_at bytes.new at ≡ self.now }
    {
        put_u32(bytes, at, self.sh_name);
        put_u32(bytes, at + 4, self.sh_type);
        put_u64(bytes, at + 8, self.sh_flags);
        put_u64(bytes, at + 16, self.sh_addr);
        put_u64(bytes, at + 24, self.sh_offset);
        put_u64(bytes, at + 32, self.sh_size);
        put_u32(bytes, at + 40, self.sh_link);
        put_u32(bytes, at + 44, self.sh_info);
        put_u64(bytes, at + 48, self.sh_addralign);
        put_u64(bytes, at + 56, self.sh_entsize);
    }
}

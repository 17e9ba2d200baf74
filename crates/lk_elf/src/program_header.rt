// A program header (gABI "Program Header").

ghost use Rattle.std.specs.Prelude.{◌≡◌, ◌+◌, ◌≤◌, ◌++◌, length, take, drop};
ghost use Rattle.lk_elf.specs.Reading.{Gives};
ghost use Rattle.lk_elf.specs.Records.{phdr_at, phdr_bytes};

use crate::fields::{put_u32, put_u64, u32_at, u64_at};
use crate::missing::{Short, find_room};
use crate::numbers::PHDR_SIZE;

/// A program header (gABI "Program Header", Elf64_Phdr).
#[derive(Clone, Copy, PartialEq, Eq, Debug)]
pub struct Phdr {
    /// What the segment is, as `PT_LOAD`.
    pub p_type: u32,
    /// The segment's rights, as `PF_X`.
    pub p_flags: u32,
    /// Where the segment is in the file, in bytes.
    pub p_offset: u64,
    /// The address in memory.
    pub p_vaddr: u64,
    /// The physical address, where that matters.
    pub p_paddr: u64,
    /// How many bytes the file holds.
    pub p_filesz: u64,
    /// How many bytes the segment takes in memory.
    pub p_memsz: u64,
    /// The alignment in bytes; 0 and 1 ask for none.
    pub p_align: u64,
}

impl Phdr {
    /// Reads a program header from the 56 bytes at `at`, or reports that they are not all there. Takes no
    /// memory.
    pub fn read_at(bytes: &[u8], at: usize) -> Result<Phdr, Short>
        ensures { Gives 56 bytes.now at (phdr_at bytes.now at) result }
    {
        find_room(bytes, at, PHDR_SIZE)?;
        Ok(Phdr::fields_at(bytes, at))
    }

    #[tactic(auto, unfolding(crate::specs::Records::phdr_at))]
    fn fields_at(bytes: &[u8], at: usize) -> Phdr
        requires { at + 56 ≤ length bytes.now }
        ensures { result ≡ phdr_at bytes.now at }
    {
        Phdr {
            p_type: u32_at(bytes, at),
            p_flags: u32_at(bytes, at + 4),
            p_offset: u64_at(bytes, at + 8),
            p_vaddr: u64_at(bytes, at + 16),
            p_paddr: u64_at(bytes, at + 24),
            p_filesz: u64_at(bytes, at + 32),
            p_memsz: u64_at(bytes, at + 40),
            p_align: u64_at(bytes, at + 48),
        }
    }

    /// Writes the 56 bytes of a program header at `at`, and leaves every other byte as it is. Takes no memory.
    pub fn write_at(&self, bytes: &mut [u8], at: usize)
        requires { at + 56 ≤ length bytes.old }
        ensures changes { bytes.new ≡ take at bytes.old ++ phdr_bytes self.now ++ drop (at + 56) bytes.old }
        ensures reads_back { phdr_at bytes.new at ≡ self.now }
    {
        put_u32(bytes, at, self.p_type);
        put_u32(bytes, at + 4, self.p_flags);
        put_u64(bytes, at + 8, self.p_offset);
        put_u64(bytes, at + 16, self.p_vaddr);
        put_u64(bytes, at + 24, self.p_paddr);
        put_u64(bytes, at + 32, self.p_filesz);
        put_u64(bytes, at + 40, self.p_memsz);
        put_u64(bytes, at + 48, self.p_align);
    }
}

// A relocation with an addend (gABI "Relocation").

ghost use Rattle.std.specs.Prelude.{◌≡◌, ◌+◌, ◌≤◌, ◌++◌, length, take, drop};
ghost use Rattle.lk_elf.specs.Reading.{Gives};
ghost use Rattle.lk_elf.specs.Records.{rela_at, rela_bytes};
ghost use Rattle.lk_elf.specs.RelocationInfo.{r_info_of, r_symbol_of, r_type_of};

use crate::fields::{i64_at, put_i64, put_u64, u64_at};
use crate::missing::{Short, find_room};
use crate::numbers::RELA_SIZE;

/// How far the number of the symbol is shifted in `r_info`: 2^32.
const SYMBOL_UNIT: u64 = 0x1_0000_0000;

/// The field `r_info` of a relocation of this type through this symbol (gABI "Relocation", ELF64_R_INFO).
pub fn r_info(symbol: u32, r_type: u32) -> u64
    ensures { result ≡ r_info_of symbol r_type }
{
    u64::from(symbol) * SYMBOL_UNIT + u64::from(r_type)
}

/// A relocation with an addend (gABI "Relocation", Elf64_Rela).
#[derive(Clone, Copy, PartialEq, Eq, Debug)]
pub struct Rela {
    /// Where the relocated field is.
    pub r_offset: u64,
    /// The symbol's number in the high 32 bits, the type in the low 32.
    pub r_info: u64,
    /// The number that is added to the symbol's value.
    pub r_addend: i64,
}

impl Rela {
    /// Reads a relocation with an addend from the 24 bytes at `at`, or reports that they are not all there. Takes no
    /// memory.
    pub fn read_at(bytes: &[u8], at: usize) -> Result<Rela, Short>
        ensures { Gives 24 bytes.now at (rela_at bytes.now at) result }
    {
        find_room(bytes, at, RELA_SIZE)?;
        Ok(Rela::fields_at(bytes, at))
    }

    #[tactic(auto, unfolding(crate::specs::Records::rela_at))]
    fn fields_at(bytes: &[u8], at: usize) -> Rela
        requires { at + 24 ≤ length bytes.now }
        ensures { result ≡ rela_at bytes.now at }
    {
        Rela {
            r_offset: u64_at(bytes, at),
            r_info: u64_at(bytes, at + 8),
            r_addend: i64_at(bytes, at + 16),
        }
    }

    /// The number of the symbol (gABI "Relocation", ELF64_R_SYM).
    pub fn r_symbol(&self) -> u32
        ensures { result ≡ r_symbol_of self.now }
    {
        let info = self.r_info;
        (info / SYMBOL_UNIT) as u32
    }

    /// The relocation type (gABI "Relocation", ELF64_R_TYPE).
    pub fn r_type(&self) -> u32
        ensures { result ≡ r_type_of self.now }
    {
        let info = self.r_info;
        (info % SYMBOL_UNIT) as u32
    }

    /// Writes the 24 bytes of a relocation with an addend at `at`, and leaves every other byte as it is. Takes no memory.
    pub fn write_at(&self, bytes: &mut [u8], at: usize)
        requires { at + 24 ≤ length bytes.old }
        ensures changes { bytes.new ≡ take at bytes.old ++ rela_bytes self.now ++ drop (at + 24) bytes.old }
        ensures reads_back { rela_at bytes.new at ≡ self.now }
    {
        put_u64(bytes, at, self.r_offset);
        put_u64(bytes, at + 8, self.r_info);
        put_i64(bytes, at + 16, self.r_addend);
    }
}

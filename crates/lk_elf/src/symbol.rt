// A symbol (gABI "Symbol Table").

ghost use Rattle.std.specs.Prelude.{◌≡◌, ◌+◌, ◌≤◌, ◌++◌, length, take, drop};
ghost use Rattle.lk_elf.specs.Reading.{Gives};
ghost use Rattle.lk_elf.specs.Records.{sym_at, sym_bytes};

use crate::fields::{put_u8, put_u16, put_u32, put_u64, u8_at, u16_at, u32_at, u64_at};
use crate::missing::{Short, find_room};
use crate::numbers::SYM_SIZE;

/// A symbol (gABI "Symbol Table", Elf64_Sym).
#[derive(Clone, Copy, PartialEq, Eq, Debug)]
pub struct Sym {
    /// Where the name is in the string table, in bytes, or 0.
    pub st_name: u32,
    /// The binding in the high four bits, the type in the low four.
    pub st_info: u8,
    /// The visibility in the low two bits.
    pub st_other: u8,
    /// The number of the symbol's section, or one as `SHN_ABS`.
    pub st_shndx: u16,
    /// The symbol's value; of a common symbol the alignment.
    pub st_value: u64,
    /// The symbol's size in bytes, or 0.
    pub st_size: u64,
}

impl Sym {
    /// Reads a symbol from the 24 bytes at `at`, or reports that they are not all there. Takes no
    /// memory.
    pub fn read_at(bytes: &[u8], at: usize) -> Result<Sym, Short>
        ensures { Gives 24 bytes.now at (sym_at bytes.now at) result }
    {
        find_room(bytes, at, SYM_SIZE)?;
        Ok(Sym::fields_at(bytes, at))
    }

    #[tactic(auto, unfolding(crate::specs::Records::sym_at))]
    fn fields_at(bytes: &[u8], at: usize) -> Sym
        requires { at + 24 ≤ length bytes.now }
        ensures { result ≡ sym_at bytes.now at }
    {
        Sym {
            st_name: u32_at(bytes, at),
            st_info: u8_at(bytes, at + 4),
            st_other: u8_at(bytes, at + 5),
            st_shndx: u16_at(bytes, at + 6),
            st_value: u64_at(bytes, at + 8),
            st_size: u64_at(bytes, at + 16),
        }
    }

    /// Writes the 24 bytes of a symbol at `at`, and leaves every other byte as it is. Takes no memory.
    pub fn write_at(&self, bytes: &mut [u8], at: usize)
        requires { at + 24 ≤ length bytes.old }
        ensures changes { bytes.new ≡ take at bytes.old ++ sym_bytes self.now ++ drop (at + 24) bytes.old }
        ensures reads_back { sym_at bytes.new at ≡ self.now }
    {
        put_u32(bytes, at, self.st_name);
        put_u8(bytes, at + 4, self.st_info);
        put_u8(bytes, at + 5, self.st_other);
        put_u16(bytes, at + 6, self.st_shndx);
        put_u64(bytes, at + 8, self.st_value);
        put_u64(bytes, at + 16, self.st_size);
    }
}

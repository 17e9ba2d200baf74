// An entry of the dynamic section (gABI "Dynamic Section").

ghost use Rattle.std.specs.Prelude.{◌≡◌, ◌+◌, ◌≤◌, ◌++◌, length, take, drop};
ghost use Rattle.lk_elf.specs.Reading.{Gives};
ghost use Rattle.lk_elf.specs.Records.{dyn_at, dyn_bytes};

use crate::fields::{i64_at, put_i64, put_u64, u64_at};
use crate::missing::{Short, find_room};
use crate::numbers::DYN_SIZE;

/// An entry of the dynamic section (gABI "Dynamic Section", Elf64_Dyn).
#[derive(Clone, Copy, PartialEq, Eq, Debug)]
pub struct Dyn {
    /// What the entry says, as `DT_NEEDED`.
    pub d_tag: i64,
    /// A number or an address, as the tag says.
    pub d_un: u64,
}

impl Dyn {
    /// Reads an entry of the dynamic section from the 16 bytes at `at`, or reports that they are not all there. Takes no
    /// memory.
    pub fn read_at(bytes: &[u8], at: usize) -> Result<Dyn, Short>
        ensures { Gives 16 bytes.now at (dyn_at bytes.now at) result }
    {
        find_room(bytes, at, DYN_SIZE)?;
        Ok(Dyn::fields_at(bytes, at))
    }

    #[tactic(auto, unfolding(crate::specs::Records::dyn_at))]
    fn fields_at(bytes: &[u8], at: usize) -> Dyn
        requires { at + 16 ≤ length bytes.now }
        ensures { result ≡ dyn_at bytes.now at }
    {
        Dyn {
            d_tag: i64_at(bytes, at),
            d_un: u64_at(bytes, at + 8),
        }
    }

    /// Writes the 16 bytes of an entry of the dynamic section at `at`, and leaves every other byte as it is. Takes no memory.
    pub fn write_at(&self, bytes: &mut [u8], at: usize)
        requires { at + 16 ≤ length bytes.old }
        ensures changes { bytes.new ≡ take at bytes.old ++ dyn_bytes self.now ++ drop (at + 16) bytes.old }
        ensures reads_back { dyn_at bytes.new at ≡ self.now }
    {
        put_i64(bytes, at, self.d_tag);
        put_u64(bytes, at + 8, self.d_un);
    }
}

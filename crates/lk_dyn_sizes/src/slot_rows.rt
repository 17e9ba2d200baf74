//! GOT slots that the dynamic linker fills.

use lk_report::List;

/// A slot that the dynamic linker fills before the program begins.
#[derive(Clone, Copy, PartialEq, Eq, Debug)]
pub struct SlotFill {
    /// The slot's number in the GOT, from 0.
    pub slot: u64,
    /// The number of its name.
    pub name: u32,
    /// The number of the relocation's type: `R_X86_64_GLOB_DAT` or `R_X86_64_TPOFF64`.
    pub code: u32,
}

/// Slots in order.
pub type SlotFillList = List<SlotFill>;

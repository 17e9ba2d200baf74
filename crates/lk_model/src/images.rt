//! The fixed numbers of an image (this project's own; psABI x86-64 "Program Loading" for the page).

/// The address of the first byte of the file: the base address.
pub const LOAD_BASE: u64 = 0x40_0000;
/// The address of the first output section; the headers are below it.
pub const FIRST_ADDRESS: u64 = 0x40_1000;
/// A page in bytes: segments begin at multiples of it.
pub const PAGE: u64 = 0x1000;
/// Where the seal is in the file, in bytes: it says that a commit ended.
pub const SEAL_OFFSET: usize = 4088;
/// The bytes of the seal.
pub const SEAL: &[u8] = b"LKSEAL01";

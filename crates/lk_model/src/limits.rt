//! The limits of a link (this project's own): a link that exceeds one is refused by its name, `LimitKind`.

/// Inputs of a command.
pub const MOST_INPUTS: u64 = 4096;
/// Bytes of one input: 64 MiB.
pub const MOST_INPUT_BYTES: u64 = 0x400_0000;
/// Bytes of all inputs that are read: 1 GiB.
pub const MOST_TOTAL_BYTES: u64 = 0x4000_0000;
/// Global names: 2^20.
pub const MOST_NAMES: u32 = 1_048_576;
/// Output sections.
pub const MOST_SECTIONS: u64 = 60_000;
/// Bytes of memory from the base address to the greatest end of a loaded room: 2 GiB.
pub const MOST_MEMORY: u64 = 0x8000_0000;
/// Program headers.
pub const MOST_HEADERS: u64 = 64;
/// Bytes of an image: 512 MiB.
pub const MOST_IMAGE_BYTES: u64 = 0x2000_0000;

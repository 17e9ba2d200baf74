//! The bytes of a hole: zeros, traps, a frame entry that describes nothing, or an empty debug unit.

ghost use Rattle.std.specs.Prelude.{◌≡◌, ◌+◌, ◌-◌, ◌^◌, ◌<◌, ◌≤◌, ◌++◌, length, take, drop, replicate};
ghost use Rattle.lk_model.specs.Holes.{fill_bytes};
ghost use Rattle.lk_freelist.specs.Filling.{frame_head, least_for, unit_head};

use lk_model::layouts::FillKind;

/// Writes the bytes from `from` on of a hole of `hole` bytes.
pub fn fill(kind: FillKind, hole: u64, from: u64, bytes: &mut [u8])
    requires inside { from + length bytes.old ≤ hole }
    requires enough { least_for kind ≤ hole }
    requires short { hole < 2 ^ 32 }
    ensures { bytes.new ≡ take (length bytes.old) (drop from (fill_bytes kind hole)) }
{
    match kind {
        FillKind::Zero => write_from(&[], 0, from as usize, bytes),
        FillKind::Trap => write_from(&[], 0xcc, from as usize, bytes),
        FillKind::Frame => write_from(&frame_start(hole as u32), 0, from as usize, bytes),
        FillKind::Unit => write_from(&unit_start(hole as u32), 0, from as usize, bytes),
    }
}

/// Writes the bytes from `from` on of a start that is followed by one byte over and over.
fn write_from(start: &[u8], rest: u8, from: usize, bytes: &mut [u8])
    ensures { bytes.new ≡ take (length bytes.old) (drop from start.now) ++ replicate (length bytes.old - (length start.now - from)) rest }
{
    bytes.fill(rest);
    if from < start.len() {
        let left = &start[from..];
        let n = left.len().min(bytes.len());
        bytes[..n].copy_from_slice(&left[..n]);
    }
}

/// The first bytes of the frame entry that takes a hole: its length, the identifier 0, version 1, no
/// augmentation, the alignments of code and data, the register of the return address.
fn frame_start(hole: u32) -> [u8; 13]
    requires { 4 ≤ hole }
    ensures { result ≡ frame_head hole }
{
    let word = (hole - 4).to_le_bytes();
    [
        word[0], word[1], word[2], word[3], 0, 0, 0, 0, 1, 0, 1, 0x78, 0x10,
    ]
}

/// The first bytes of the debug unit that takes a hole: its length, version 4, the offset 0 of its
/// abbreviations, the size of an address (DWARF 4, "Unit Headers").
fn unit_start(hole: u32) -> [u8; 11]
    requires { 4 ≤ hole }
    ensures { result ≡ unit_head hole }
{
    let word = (hole - 4).to_le_bytes();
    [word[0], word[1], word[2], word[3], 4, 0, 0, 0, 0, 0, 8]
}

//! The path of the dynamic linker as bytes (gABI "Program Interpreter").

ghost use Rattle.std.specs.Prelude.{◌≡◌, ◌++◌, IfOk, OnOk};
ghost use Rattle.lk_model.specs.DynamicTexts.{interp_bytes};
ghost use Rattle.lk_model.specs.Texts.{ended};
ghost use Rattle.lk_model.specs.Views.{Resolved};

use crate::appending::put_bytes;
use lk_dyn_sizes::interpreter_path;
use lk_report::{Bytes, Name, NoMemory};
use std::alloc::Global;

/// Puts a text at the end, with its closing zero.
fn put_text(out: &mut Vec<u8>, text: &[u8]) -> Result<(), NoMemory>
    ensures { OnOk result (out.new.items ≡ out.old.items ++ ended text.now) }
{
    put_bytes(out, text)?;
    put_bytes(out, &[0])
}

/// The bytes of `.interp`, the path of the dynamic linker (gABI "Program Interpreter"); an empty path that is
/// given is the usual one.
///
/// # Errors
/// Out of memory.
#[tactic(auto, unfolding(lk_model::specs::DynamicTexts::interp_bytes))]
pub fn interp_table(alloc: Global, given: &Name) -> Result<Bytes, NoMemory>
    ensures { (r : Resolved) → r.options.interp ≡ given.now → IfOk result (λ table. table ≡ interp_bytes r) }
{
    let mut out = Vec::new(alloc);
    put_text(&mut out, interpreter_path(given.as_slice()))?;
    Bytes::from_vec(out)
}

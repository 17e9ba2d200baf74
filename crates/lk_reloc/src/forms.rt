//! What the relocation types refer to, asked by number (psABI x86-64, "Relocation Types").

ghost use Rattle.std.specs.Prelude.{◌≡◌, ◌==◌, is_some};
ghost use Rattle.lk_model.specs.Forms.{is_address_form, is_block_offset, is_got_form, is_size_form, is_thread_form, is_thread_offset, r_x86_64_gottpoff, r_x86_64_none, r_x86_64_plt32};
ghost use Rattle.lk_model.specs.RelocationTypes.{relocation_type_of};
ghost use Rattle.lk_reloc.specs.Forms.{IsFormOf};

use crate::relocation_types::RelocationType;
use crate::rules::Form;

/// What a reference goes to whose relocation type has the number `r_type` (psABI x86-64, "Relocation
/// Types"); none where no type that is linked has it.
#[tactic(auto, using(crate::proofs::FormsFound::by_number))]
pub fn form_of(r_type: u32) -> Option<Form>
    ensures { IsFormOf r_type result }
{
    match RelocationType::with_number(r_type) {
        Some(kind) => Some(kind.rule().form),
        None => None,
    }
}

/// Whether a relocation type is one that is linked (psABI x86-64, "Relocation Types").
pub fn is_known(r_type: u32) -> bool
    ensures { result ≡ is_some (relocation_type_of r_type) }
{
    form_of(r_type).is_some()
}

/// Whether a relocation type is `R_X86_64_NONE` (psABI x86-64, "Relocation Types").
pub fn is_none(r_type: u32) -> bool
    ensures { result ≡ (r_type == r_x86_64_none) }
{
    matches!(form_of(r_type), Some(Form::NoReference))
}

/// Whether a relocation type goes to a PLT entry (psABI x86-64, "Relocation Types").
pub fn is_plt_form(r_type: u32) -> bool
    ensures { result ≡ (r_type == r_x86_64_plt32) }
{
    matches!(form_of(r_type), Some(Form::PltEntry))
}

/// Whether a relocation type goes to a slot of the GOT that holds an address (psABI x86-64, "Relocation
/// Types").
pub fn is_got_form(r_type: u32) -> bool
    ensures { result ≡ is_got_form r_type }
{
    matches!(form_of(r_type), Some(Form::AddressSlot))
}

/// Whether a relocation type goes to a slot of the GOT that holds an offset from the thread pointer (psABI
/// x86-64, "Relocation Types").
pub fn is_thread_slot_form(r_type: u32) -> bool
    ensures { result ≡ (r_type == r_x86_64_gottpoff) }
{
    matches!(form_of(r_type), Some(Form::ThreadSlot))
}

/// Whether a relocation type is the offset of a thread-local symbol in the block of its module (psABI
/// x86-64, "Relocation Types").
pub fn is_block_offset(r_type: u32) -> bool
    ensures { result ≡ is_block_offset r_type }
{
    matches!(form_of(r_type), Some(Form::BlockOffset))
}

/// Whether a relocation type is the offset of a thread-local symbol from the thread pointer (psABI x86-64,
/// "Relocation Types").
pub fn is_thread_offset(r_type: u32) -> bool
    ensures { result ≡ is_thread_offset r_type }
{
    matches!(form_of(r_type), Some(Form::ThreadOffset))
}

/// Whether a relocation type refers to a thread-local symbol as such (psABI x86-64, "Relocation Types").
pub fn is_thread_form(r_type: u32) -> bool
    ensures { result ≡ is_thread_form r_type }
{
    matches!(
        form_of(r_type),
        Some(Form::ThreadSlot | Form::BlockOffset | Form::ThreadOffset)
    )
}

/// Whether a relocation type is a symbol's size (psABI x86-64, "Relocation Types").
pub fn is_size_form(r_type: u32) -> bool
    ensures { result ≡ is_size_form r_type }
{
    matches!(form_of(r_type), Some(Form::Size))
}

/// Whether a relocation type holds a symbol's own address (psABI x86-64, "Relocation Types").
pub fn is_address_form(r_type: u32) -> bool
    ensures { result ≡ is_address_form r_type }
{
    matches!(form_of(r_type), Some(Form::Address))
}

//! The relocation types: the table of all that are linked, the values of relocations, and their fields (psABI
//! x86-64, "Relocation Types").
//!
//! The number of a relocation's type (`r_type`) comes in. Out goes what the table says of it: the width of
//! the field (`width_of`), and what a reference of the type goes to (`form_of`, `is_got_form` and the others).
//! With the numbers of a reference (the symbol's value and size, the addend, the address of the field, PLT
//! entry, GOT slot, GOT, thread-local block) out goes the value modulo 2^64 (`value`); with a value, the bytes
//! of the section with the field replaced (`apply`), or the value that the field does not take.
//!
//! The contracts cite lk_model: `relocation_type_of` of specs/RelocationTypes for the table, the forms of
//! specs/Forms, `value_of` and `fits` of specs/Values, `patch` of specs/LinkedBytes.
//!
//! Callers rely on one law: a field is replaced exactly where its value fits, with no byte beside it, and
//! after a refusal every byte is as before. No call allocates, and each takes constant time. What "fits" means
//! is tied to the words of the psABI by `fields_give_their_values_back`: the field, read and extended, is the
//! value.
#![tactic(auto)]

mod fields;
mod forms;
mod laws;
mod ranges;
mod relocation_types;
mod rules;
mod values;

pub use fields::{Overflow, apply};
pub use forms::{
    form_of, is_address_form, is_block_offset, is_got_form, is_known, is_none, is_plt_form,
    is_size_form, is_thread_form, is_thread_offset, is_thread_slot_form,
};
pub use laws::fields_give_their_values_back;
pub use relocation_types::RelocationType;
pub use rules::{Form, Formula, RangeTest, Rule, width_of};
pub use values::value;

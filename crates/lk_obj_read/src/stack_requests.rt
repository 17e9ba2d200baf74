//! Whether an object asks for an executable stack: by the flag EXECINSTR on its section `.note.GNU-stack`,
//! GNU's own convention, which no section of the gABI has.

ghost use Rattle.std.specs.Prelude.{◌≡◌, ◌<◌, ◌^◌, List, [], bytes_eq, codes, length};
ghost use Rattle.std.specs.List.{list_any};
ghost use Rattle.std.specs.Option.{option_copied};
ghost use Rattle.lk_elf.specs.Numbers.{shf_execinstr};
ghost use Rattle.lk_elf.specs.declared.symbol.Sym.{Sym};
ghost use Rattle.lk_model.specs.Amounts.{has_flag};
ghost use Rattle.lk_model.specs.Checks.{is_some_with};
ghost use Rattle.lk_model.specs.Elf.{numbered};
ghost use Rattle.lk_model.specs.Objects.{asks_exec_stack};
ghost use Rattle.lk_obj_parts.specs.ElfViews.{elf_from};

use lk_elf::numbers::SHF_EXECINSTR;
use lk_elf::{Ehdr, Shdr};
use lk_obj_parts::section_name;

/// Whether a section holds instructions.
fn is_executable(section: &Shdr) -> bool
    ensures { result ≡ has_flag section.now.sh_flags shf_execinstr }
{
    (section.sh_flags / SHF_EXECINSTR) % 2 == 1
}

/// Whether a section has a name, and it is that of the section that asks for a kind of stack (`.note.GNU-stack`).
fn is_stack_note(name: Option<&[u8]>) -> bool
    ensures { result ≡ is_some_with (bytes_eq (codes ".note.GNU-stack")) (option_copied name.entry) }
{
    match name {
        None => false,
        Some(name) => b".note.GNU-stack".as_slice() == name,
    }
}

/// Whether a section, by its number, asks for an executable stack.
#[tactic(auto, unfolding(lk_model::specs::Objects::asks_exec_stack))]
fn is_request(bytes: &[u8], header: &Ehdr, sections: &[Shdr], n: u32, section: &Shdr) -> bool
    ensures { result ≡ asks_exec_stack (elf_from bytes.now header.now sections.now []) (n, section.now) }
{
    is_executable(section) && is_stack_note(section_name(bytes, header, sections, n))
}

/// Whether a section of an object asks for an executable stack.
///
/// A section number as a number of 32 bits.
#[tactic(auto, using(crate::proofs::StacksAsked::request_here, crate::proofs::StacksAsked::no_request_here, crate::proofs::StacksAsked::no_request_left, crate::proofs::StacksAsked::stack_reported))]
pub fn asks_exec_stack(bytes: &[u8], header: &Ehdr, sections: &[Shdr]) -> bool
    requires few { length sections.now < 2 ^ 32 }
    ensures { (symbols : List Sym) → result ≡ list_any (asks_exec_stack (elf_from bytes.now header.now sections.now symbols)) (numbered sections.now) }
{
    for i in 1..sections.len() {
        if is_request(bytes, header, sections, i as u32, &sections[i]) {
            return true;
        }
    }
    false
}

//! The names of the output sections that the linker makes itself (gABI "Special Sections"; the names of the
//! records are this project's own): no piece of an input has one.

ghost use Rattle.std.specs.Prelude.{◌≡◌};
ghost use Rattle.lk_model.specs.Pieces.{is_table_name, is_tail_name};

use crate::kinds::is_name;

/// Whether a name is that of a table that the linker makes (gABI "Special Sections").
#[tactic(auto, unfolding(lk_model::specs::Pieces::table_names))]
pub fn is_table_name(name: &[u8]) -> bool
    ensures { result ≡ is_table_name name.now }
{
    is_name(name, b".interp")
        || is_name(name, b".hash")
        || is_name(name, b".dynsym")
        || is_name(name, b".dynstr")
        || is_name(name, b".rela.dyn")
        || is_name(name, b".rela.plt")
        || is_name(name, b".plt")
        || is_name(name, b".dynamic")
        || is_name(name, b".got")
        || is_name(name, b".got.plt")
}

/// Whether a name is that of a section behind the output sections: symbols, records of the link, section
/// names (gABI "Special Sections").
#[tactic(auto, unfolding(lk_model::specs::Pieces::tail_names))]
pub fn is_tail_name(name: &[u8]) -> bool
    ensures { result ≡ is_tail_name name.now }
{
    is_name(name, b".symtab")
        || is_name(name, b".strtab")
        || is_name(name, b".gnu_incremental_inputs")
        || is_name(name, b".gnu_incremental_symtab")
        || is_name(name, b".gnu_incremental_relocs")
        || is_name(name, b".gnu_incremental_got_plt")
        || is_name(name, b".gnu_incremental_strtab")
        || is_name(name, b".shstrtab")
}

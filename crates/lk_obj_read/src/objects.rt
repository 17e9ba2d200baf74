//! An object as it was read: its bytes, and beside them what is asked for more than once. Contracts see it
//! as its bytes; each answer is the definition's value of the file that they are.

ghost use Rattle.std.specs.Prelude.{◌≡◌, ◌+◌, ◌<◌, ◌≤◌, All, IfSome, IsTrue, None, length};
ghost use Rattle.lk_elf.specs.Numbers.{shf_tls};
ghost use Rattle.lk_model.specs.Amounts.{has_flag};
ghost use Rattle.lk_model.specs.Elf.{elf_of, section_at};
ghost use Rattle.lk_model.specs.ObjectChecks.{object_fault};
ghost use Rattle.lk_model.specs.Objects.{is_piece_in, local_in, piece_bytes_in, relocations_in, summary_in};
ghost use Rattle.lk_model.specs.RelocationTypes.{width_of};
ghost use Rattle.lk_model.specs.ScanFaults.{is_tls_section};
ghost use Rattle.lk_elf.specs.RelocationInfo.{r_symbol_of, r_type_of};
ghost use Rattle.lk_obj_parts.specs.TargetRows.{room_of};

use crate::local_symbols::local_at;
use crate::pieces::stored_bytes;
use crate::rela_lists::RelaList;
use crate::symbol_places::SymbolPlace;
use lk_elf::Shdr;
use lk_elf::numbers::SHF_TLS;
use lk_model::summaries::{InputSummary, Local};
use lk_report::Bytes;
use std::marker::Model;

/// An object that has no fault, as it was read. It owns the bytes of its file, once; its sections are
/// slices of them.
#[derive(Drop)]
pub struct Object {
    pub(crate) bytes: Bytes,
    pub(crate) sections: Vec<Shdr>,
    pub(crate) symbols: SymbolPlace,
    pub(crate) summary: InputSummary,
    pub(crate) relocations: Vec<RelaList>,
}

impl Model for Object {
    ghost use Rattle.std.specs.Prelude.{ℕ, List};

    ghost Value = { List ℕ };

    ghost use Rattle.lk_obj_read.specs.ReadObjects.{IsRead};

    ghost view = { λ o. o.bytes };

    ghost invariant = { λ o. IsRead o.bytes o.sections.items o.symbols o.summary o.relocations.items };
}

/// Whether a section is thread-local (gABI "Sections", SHF_TLS).
fn is_thread_local(header: &Shdr) -> bool
    ensures { result ≡ has_flag header.now.sh_flags shf_tls }
{
    header.sh_flags / SHF_TLS % 2 == 1
}

impl Object {
    /// What a link keeps of the object. Takes no memory.
    ///
    /// An object has no fault, and what it lists as pieces are pieces, for which the calls below may be
    /// asked.
    #[tactic(auto, using(crate::proofs::ObjectsStored::pieces_reported))]
    pub fn summary(&self) -> &InputSummary
        ensures value { result.now ≡ summary_in (elf_of self.now) }
        ensures sound { object_fault self.now ≡ None }
        ensures pieces { All (λ piece. IsTrue (is_piece_in (elf_of self.now) piece.section)) result.now.pieces }
    {
        &self.summary
    }

    /// The bytes of a piece in the file, all that its header says; none of a NOBITS section. Takes no
    /// memory.
    #[tactic(auto, using(crate::proofs::ObjectsStored::is_there, crate::proofs::ObjectsStored::stored_reported, crate::proofs::SoundParts::bytes_there))]
    pub fn piece_bytes(&self, section: u32) -> &[u8]
        requires { IsTrue (is_piece_in (elf_of self.now) section) }
        ensures value { result.now ≡ piece_bytes_in (elf_of self.now) section }
        ensures whole { IfSome (section_at (elf_of self.now) section) (λ header. length result.now ≡ room_of header) }
    {
        stored_bytes(self.bytes.as_slice(), &self.sections[section as usize])
    }

    /// The relocations of a piece, by the section that holds them and entry. Their fields lie in the bytes
    /// of the piece, and the object has their symbols. Takes no memory.
    #[tactic(auto, using(crate::proofs::ObjectsStored::is_there, crate::proofs::SoundParts::fields_there, crate::proofs::SoundParts::symbols_there))]
    pub fn relocations(&self, section: u32) -> &RelaList
        requires { IsTrue (is_piece_in (elf_of self.now) section) }
        ensures value { result.now ≡ relocations_in (elf_of self.now) section }
        ensures fields { All (λ rela. rela.r_offset + width_of (r_type_of rela) ≤ length (piece_bytes_in (elf_of self.now) section)) result.now }
        ensures symbols { All (λ rela. r_symbol_of rela < length (elf_of self.now).symbols) result.now }
    {
        &self.relocations[section as usize]
    }

    /// A LOCAL symbol by its number; the null symbol for number 0, whatever its bytes are, and for a number
    /// that no symbol has. Takes no memory.
    #[tactic(auto, using(lk_obj_parts::proofs::SymbolRows::local_reported))]
    pub fn local(&self, symbol: u32) -> Local
        ensures { result ≡ local_in (elf_of self.now) symbol }
    {
        local_at(self.bytes.as_slice(), self.symbols, symbol)
    }

    /// Whether the section with this number is thread-local (gABI "Sections", SHF_TLS); no section has a
    /// number past the table. Takes no memory.
    pub fn is_tls_section(&self, section: u32) -> bool
        ensures { result ≡ is_tls_section (elf_of self.now) section }
    {
        match self.sections.get(section as usize) {
            Some(header) => is_thread_local(header),
            None => false,
        }
    }
}

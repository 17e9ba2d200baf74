//! A piece that the link keeps.

ghost use Rattle.std.specs.Prelude.{◌≡◌, false};
ghost use Rattle.lk_model.specs.KeptPieces.{section_piece};
ghost use Rattle.lk_model.specs.Views.{KeptPiece};

use lk_model::layouts::{PieceId, SectionKey};
use lk_model::summaries::PieceInfo;
use lk_report::Name;
use std::marker::Model;

/// A kept piece: what it is, the output section that it goes to, its input section's name (empty for a common
/// block or a copy), its size and alignment in bytes, and whether it is a terminator of `.eh_frame`. Contracts
/// see it as a `KeptPiece` of lk_model.
#[derive(Drop)]
pub(crate) struct Kept<'p> {
    piece: PieceId,
    key: &'p SectionKey,
    name: &'p Name,
    size: u64,
    align: u64,
    terminator: bool,
}

impl<'p> Model for Kept<'p> {
    ghost use Rattle.lk_model.specs.Views.{KeptPiece};

    ghost Value = { KeptPiece };

    ghost view = { λ k. record { piece = k.piece; key = k.key.now; name = k.name.now; size = k.size; align = k.align; terminator = k.terminator } };
}

impl<'p> Kept<'p> {
    /// A section of an input.
    pub(crate) fn section(input: u32, info: &'p PieceInfo) -> Self
        ensures { result ≡ section_piece input info.now }
    {
        Kept {
            piece: PieceId::Section {
                input,
                section: info.section,
            },
            key: &info.key,
            name: &info.name,
            size: info.size,
            align: info.align,
            terminator: info.terminator,
        }
    }

    /// What it is.
    pub(crate) fn piece(&self) -> PieceId
        ensures { result ≡ self.now.piece }
    {
        self.piece
    }

    /// The output section that it goes to.
    pub(crate) fn key(&self) -> &'p SectionKey
        ensures { result.now ≡ self.now.key }
    {
        self.key
    }

    /// The name of its input section.
    pub(crate) fn name(&self) -> &'p Name
        ensures { result.now ≡ self.now.name }
    {
        self.name
    }

    /// Its size in bytes.
    pub(crate) fn size(&self) -> u64
        ensures { result ≡ self.now.size }
    {
        self.size
    }

    /// Its alignment in bytes.
    pub(crate) fn align(&self) -> u64
        ensures { result ≡ self.now.align }
    {
        self.align
    }

    /// Whether it is a terminator.
    pub(crate) fn is_terminator(&self) -> bool
        ensures { result ≡ self.now.terminator }
    {
        self.terminator
    }
}

/// What common blocks and copies share: their output section and the empty name.
#[derive(Drop)]
pub(crate) struct Nameless<'p> {
    /// The key of `.bss`.
    pub(crate) key: &'p SectionKey,
    /// The empty name.
    pub(crate) name: &'p Name,
}

impl<'p> Nameless<'p> {
    /// A piece of this size and alignment that is no section of an input.
    pub(crate) fn kept(&self, piece: PieceId, size: u64, align: u64) -> Kept<'p>
        ensures { let made : KeptPiece = record { piece = piece; key = self.now.key.now; name = self.now.name.now; size = size; align = align; terminator = false } in result ≡ made }
    {
        Kept {
            piece,
            key: self.key,
            name: self.name,
            size,
            align,
            terminator: false,
        }
    }
}

//! The relocation types that are linked, by name and number (psABI x86-64, "Relocation Types").

ghost use Rattle.std.specs.Prelude.{◌≡◌, None, MatchOption};
ghost use Rattle.lk_model.specs.RelocationTypes.{relocation_type_of};
ghost use Rattle.lk_reloc.specs.Rules.{number_of};

/// A relocation type that is linked (psABI x86-64, "Relocation Types"). The name in the psABI is `R_X86_64_`
/// and the name that is given here; what a type does is its `rule`.
#[derive(Clone, Copy)]
pub enum RelocationType {
    /// `NONE`.
    NoRelocation,
    /// `64`.
    Word64,
    /// `PC32`.
    Pc32,
    /// `PLT32`.
    Plt32,
    /// `GOTPCREL`.
    GotPcRel,
    /// `32`.
    Word32,
    /// `32S`.
    Signed32,
    /// `16`.
    Word16,
    /// `PC16`.
    Pc16,
    /// `8`.
    Word8,
    /// `PC8`.
    Pc8,
    /// `DTPOFF64`.
    DtpOff64,
    /// `TPOFF64`.
    TpOff64,
    /// `DTPOFF32`.
    DtpOff32,
    /// `GOTTPOFF`.
    GotTpOff,
    /// `TPOFF32`.
    TpOff32,
    /// `PC64`.
    Pc64,
    /// `GOTOFF64`.
    GotOff64,
    /// `GOTPC32`.
    GotPc32,
    /// `SIZE32`.
    Size32,
    /// `SIZE64`.
    Size64,
    /// `GOTPCRELX`.
    GotPcRelX,
    /// `REX_GOTPCRELX`.
    RexGotPcRelX,
}

impl RelocationType {
    /// The type with the number `r_type`; none where no type that is linked has it.
    pub fn with_number(r_type: u32) -> Option<Self>
        ensures { MatchOption result (relocation_type_of r_type ≡ None) (λ t. r_type ≡ number_of t) }
    {
        match r_type {
            0 => Some(Self::NoRelocation),
            1 => Some(Self::Word64),
            2 => Some(Self::Pc32),
            4 => Some(Self::Plt32),
            9 => Some(Self::GotPcRel),
            10 => Some(Self::Word32),
            11 => Some(Self::Signed32),
            12 => Some(Self::Word16),
            13 => Some(Self::Pc16),
            14 => Some(Self::Word8),
            15 => Some(Self::Pc8),
            17 => Some(Self::DtpOff64),
            18 => Some(Self::TpOff64),
            21 => Some(Self::DtpOff32),
            22 => Some(Self::GotTpOff),
            23 => Some(Self::TpOff32),
            24 => Some(Self::Pc64),
            25 => Some(Self::GotOff64),
            26 => Some(Self::GotPc32),
            32 => Some(Self::Size32),
            33 => Some(Self::Size64),
            41 => Some(Self::GotPcRelX),
            42 => Some(Self::RexGotPcRelX),
            _ => None,
        }
    }
}

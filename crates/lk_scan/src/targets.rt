//! What references go to, and the references themselves, as they are looked at.

/// Through what a reference goes.
#[derive(Clone, Copy)]
pub enum Way {
    /// A name by its number, and whether the symbol of the reference is WEAK.
    Name { number: u32, weak: bool },
    /// A LOCAL symbol of its own object, or none (symbol 0).
    Local(u32),
}

/// The symbol of a shared input that a name means.
#[derive(Clone, Copy)]
pub struct Import {
    /// The number of the name.
    pub name: u32,
    /// The symbol's type.
    pub code: u32,
    /// `st_size`, in bytes.
    pub size: u64,
}

/// What a reference goes to.
#[derive(Clone, Copy)]
pub struct Target {
    pub way: Way,
    /// Whether it is a name that nothing defines, and the reference is not weak.
    pub is_undefined: bool,
    /// Whether it is a LOCAL symbol of a section that is not linked.
    pub is_dropped: bool,
    /// Whether it is thread-local.
    pub is_tls: bool,
    /// Whether it has no thread-local meaning.
    pub is_no_tls: bool,
    pub import: Option<Import>,
}

/// A relocation of a kept piece (gABI "Relocation"), and what it goes to.
#[derive(Clone, Copy)]
pub struct Referral {
    /// The input's number.
    pub input: u32,
    /// The number of the piece's section in it.
    pub section: u32,
    /// The field's offset in the section, in bytes.
    pub offset: u64,
    /// The relocation type.
    pub code: u32,
    pub addend: i64,
    pub target: Target,
}

/// What the output section of a piece says of the references in it.
#[derive(Clone, Copy)]
pub struct Setting {
    /// Whether it is loaded.
    pub is_loaded: bool,
    /// Whether a reference must not go to a LOCAL symbol of a section that is not linked.
    pub wants_sections: bool,
}

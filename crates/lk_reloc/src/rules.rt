//! The table of relocation types: for each the width of its field, what its value is made of, which values
//! the field takes, and what a reference of the type goes to (psABI x86-64, "Relocation Types"; the tests of
//! `16`, `8`, `PC16`, `PC8`, `SIZE32` and `DTPOFF32` are this project's own).

ghost use Rattle.std.specs.Prelude.{◌≡◌, ◌≤◌, Some};
ghost use Rattle.lk_model.specs.RelocationTypes.{relocation_type_of, width_of};
ghost use Rattle.lk_reloc.specs.Forms.{form_by, IsFormOf};
ghost use Rattle.lk_reloc.specs.Rules.{number_of, row_with, IsNarrow, IsRuleOf};

use crate::relocation_types::RelocationType;

/// What the value of a relocation is made of (psABI x86-64, "Relocation Types"). S is the symbol's value, A
/// the addend, P the address of the field.
#[derive(Clone, Copy)]
pub enum Formula {
    /// 0.
    NoValue,
    /// S + A.
    Absolute,
    /// S + A - P.
    Relative,
    /// The PLT entry + A - P.
    PltRelative,
    /// The GOT slot with the symbol's address + A - P.
    SlotRelative,
    /// The GOT slot with the symbol's thread offset + A - P.
    ThreadSlotRelative,
    /// S + A - the GOT.
    GotOffset,
    /// The GOT + A - P.
    GotRelative,
    /// The symbol's size + A.
    SymbolSize,
    /// S + A - the start of the thread-local block.
    DtpOffset,
    /// S + A - the end of the thread-local block.
    TpOffset,
}

/// Which values a field takes (psABI x86-64, "Relocation Types").
#[derive(Clone, Copy)]
pub enum RangeTest {
    /// Every value.
    Any,
    /// Those that the field gives back, extended by its sign.
    BySign,
    /// Those that the field gives back, extended by zeros.
    ByZeros,
    /// Those that the field gives back in one of the two ways.
    Either,
}

/// What a reference goes to (psABI x86-64, "Relocation Types").
#[derive(Clone, Copy)]
pub enum Form {
    /// Nothing.
    NoReference,
    /// The symbol's own address.
    Address,
    /// The symbol's entry of the PLT.
    PltEntry,
    /// The slot of the GOT with the symbol's address.
    AddressSlot,
    /// The slot of the GOT with the symbol's offset from the thread pointer.
    ThreadSlot,
    /// The GOT itself.
    Got,
    /// The symbol's offset in the thread-local block of its module.
    BlockOffset,
    /// The symbol's offset from the thread pointer.
    ThreadOffset,
    /// The symbol's size.
    Size,
}

/// What a relocation type does (psABI x86-64, "Relocation Types").
#[derive(Clone, Copy)]
pub struct Rule {
    /// The width of the field in bytes.
    pub width: usize,
    /// What the value is made of.
    pub formula: Formula,
    /// Which values the field takes.
    pub test: RangeTest,
    /// What a reference of the type goes to.
    pub form: Form,
}

impl Formula {
    /// What a reference goes to whose value is made of this.
    fn form(self) -> Form
        ensures { result ≡ form_by self }
    {
        match self {
            Self::NoValue => Form::NoReference,
            Self::Absolute | Self::Relative | Self::GotOffset => Form::Address,
            Self::PltRelative => Form::PltEntry,
            Self::SlotRelative => Form::AddressSlot,
            Self::ThreadSlotRelative => Form::ThreadSlot,
            Self::GotRelative => Form::Got,
            Self::SymbolSize => Form::Size,
            Self::DtpOffset => Form::BlockOffset,
            Self::TpOffset => Form::ThreadOffset,
        }
    }
}

/// The rule of a field of this width, a value of this formula and a test.
fn rule_with(width: usize, formula: Formula, test: RangeTest) -> Rule
    ensures { result ≡ record { width = width; formula = formula; test = test; form = form_by formula } }
{
    Rule {
        width,
        formula,
        test,
        form: formula.form(),
    }
}

/// The rule of a type that writes nothing.
fn no_value() -> Rule
    ensures { result ≡ record { width = 0; formula = Formula.NoValue; test = RangeTest.Any; form = Form.NoReference } }
{
    rule_with(0, Formula::NoValue, RangeTest::Any)
}

/// The rule of a field of eight bytes, which takes every value.
fn whole(formula: Formula) -> Rule
    ensures { result ≡ record { width = 8; formula = formula; test = RangeTest.Any; form = form_by formula } }
{
    rule_with(8, formula, RangeTest::Any)
}

/// The rule of a field that its sign extends.
fn signed(width: usize, formula: Formula) -> Rule
    ensures { result ≡ record { width = width; formula = formula; test = RangeTest.BySign; form = form_by formula } }
{
    rule_with(width, formula, RangeTest::BySign)
}

/// The rule of a field of four bytes that zeros extend.
fn unsigned(formula: Formula) -> Rule
    ensures { result ≡ record { width = 4; formula = formula; test = RangeTest.ByZeros; form = form_by formula } }
{
    rule_with(4, formula, RangeTest::ByZeros)
}

/// The rule of a field that its sign or zeros extend.
fn either(width: usize, formula: Formula) -> Rule
    ensures { result ≡ record { width = width; formula = formula; test = RangeTest.Either; form = form_by formula } }
{
    rule_with(width, formula, RangeTest::Either)
}

impl RelocationType {
    /// What the type does (psABI x86-64, "Relocation Types").
    #[tactic(auto, unfolding(lk_model::specs::RelocationTypes::relocation_type_of, lk_model::specs::RelocationTypes::relocation_types))]
    pub fn rule(self) -> Rule
        ensures row { relocation_type_of (number_of self) ≡ Some (row_with (number_of self) result) }
        ensures narrow { IsNarrow result.test result.width }
        ensures form { IsFormOf (number_of self) (Some result.form) }
    {
        match self {
            Self::NoRelocation => no_value(),
            Self::Word64 => whole(Formula::Absolute),
            Self::Pc64 => whole(Formula::Relative),
            Self::DtpOff64 => whole(Formula::DtpOffset),
            Self::TpOff64 => whole(Formula::TpOffset),
            Self::GotOff64 => whole(Formula::GotOffset),
            Self::Size64 => whole(Formula::SymbolSize),
            Self::Pc32 => signed(4, Formula::Relative),
            Self::Plt32 => signed(4, Formula::PltRelative),
            Self::GotPcRel | Self::GotPcRelX | Self::RexGotPcRelX => {
                signed(4, Formula::SlotRelative)
            }
            Self::GotTpOff => signed(4, Formula::ThreadSlotRelative),
            Self::Signed32 => signed(4, Formula::Absolute),
            Self::Pc16 => signed(2, Formula::Relative),
            Self::Pc8 => signed(1, Formula::Relative),
            Self::DtpOff32 => signed(4, Formula::DtpOffset),
            Self::TpOff32 => signed(4, Formula::TpOffset),
            Self::GotPc32 => signed(4, Formula::GotRelative),
            Self::Word32 => unsigned(Formula::Absolute),
            Self::Size32 => unsigned(Formula::SymbolSize),
            Self::Word16 => either(2, Formula::Absolute),
            Self::Word8 => either(1, Formula::Absolute),
        }
    }
}

/// What the type with the number `r_type` does; nothing where no type that is linked has it.
#[tactic(auto, using(crate::proofs::RulesFound::by_row, crate::proofs::RulesFound::by_none))]
pub(crate) fn rule_of(r_type: u32) -> Rule
    ensures { IsRuleOf r_type result }
{
    match RelocationType::with_number(r_type) {
        Some(kind) => kind.rule(),
        None => no_value(),
    }
}

/// The width in bytes of the field of a relocation whose type has the number `r_type` (psABI x86-64,
/// "Relocation Types"); 0 for `R_X86_64_NONE`, and for a number that no type that is linked has.
#[tactic(auto, using(crate::proofs::RulesFound::short))]
pub fn width_of(r_type: u32) -> u64
    ensures value { result ≡ width_of r_type }
    ensures short { result ≤ 8 }
{
    rule_of(r_type).width as u64
}

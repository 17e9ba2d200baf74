//! The values of symbols at a placement, and the numbers of a relocation (psABI x86-64 "Relocation Types").

ghost use Rattle.std.specs.Prelude.{◌≡◌, ℕ, ◌<◌, ◌≤◌, ◌^◌, slice_get, Bool, List, Some, IfOk};
ghost use Rattle.std.specs.Option.{option_copied};
ghost use Rattle.lk_report.specs.declared.causes.OptionRecord.{OptionRecord};
ghost use Rattle.lk_model.specs.FileHeader.{entry_value};
ghost use Rattle.lk_model.specs.FullPlace.{memory_of};
ghost use Rattle.lk_model.specs.Lawful.{Lawful};
ghost use Rattle.lk_model.specs.Resolving.{resolve};
ghost use Rattle.lk_model.specs.SymbolValues.{block_edge, is_thread_slot, local_of, local_value, name_value, numbers_of, slot_value};
ghost use Rattle.lk_model.specs.Views.{Input, Ref, Resolved};
ghost use Rattle.lk_model.specs.Views.Through.{ByLocal, ByName};
ghost use Rattle.lk_model.specs.declared.layouts.GotOwner.TheVariants as owner;
ghost use Rattle.lk_model.specs.declared.layouts.Needs.{Needs};
ghost use Rattle.lk_resolve.specs.Given.{IsGiven};
ghost use Rattle.lk_symbol_values.specs.InputSymbols.{symbol_in};
ghost use Rattle.lk_symbol_values.specs.NameValues.{given_at};
ghost use Rattle.lk_symbol_values.specs.Sections.{low_64};
ghost use Rattle.lk_symbol_values.specs.SymbolNumbering.{content_of, low_numbers, numbers_by, owner_slot, piece_start, place_at, relocation_of, slot_by, value_at, value_or_nothing, symbol_numbers_by, symbol_numbers_of};

use crate::addresses::Addresses;
use crate::input_symbols::InputSymbols;
use crate::made_values::MadeValues;
use crate::name_values::{SymbolValue, SymbolValueList, local_value, name_values};
use lk_model::layouts::{GotKey, GotOwner, Numbers, Placement};
use lk_model::summaries::{Global as Symbol, Local, SummaryList};
use lk_report::{Name, NoMemory};
use lk_resolve::Resolution;
use std::alloc::Global;
use std::marker::Model;

/// The relocation whose GOT slot holds a thread offset: `R_X86_64_GOTTPOFF`.
const GOTTPOFF: u32 = 22;

/// A relocation at its place (gABI "Relocation").
#[derive(Clone, Copy)]
pub struct Relocation {
    /// The address of its field, P; 0 in a section that is not placed.
    pub address: u64,
    /// The relocation type.
    pub code: u32,
    pub addend: i64,
}

/// The numbers that a symbol gives to the formulas of the relocations through it (psABI x86-64 "Relocation Types"),
/// each by its low 64 bits. They are the same for all of these relocations, so they are found once for each symbol of
/// an object.
#[derive(Clone, Copy)]
pub struct SymbolNumbers {
    /// The symbol's value, S.
    pub value: u64,
    /// The address of its PLT entry, where it is an import with one, and S otherwise: L.
    pub call: u64,
    /// Its size in bytes, Z.
    pub size: u64,
    /// Whether it has a place in the image.
    pub placed: bool,
    /// The address of the GOT slot that holds its value; 0 without one.
    pub slot: u64,
    /// The address of the GOT slot that holds its thread offset; 0 without one.
    pub thread_slot: u64,
}

/// The value of a name without a number in the symbol table.
const NOTHING: SymbolValue = SymbolValue {
    value: 0,
    call: 0,
    size: 0,
    placed: false,
    got_content: 0,
};

/// The values of symbols at a placement (gABI "Symbol Table"), with the resolution and the placement that they were
/// made of. Contracts see it as these two and the summaries of the inputs.
#[derive(Drop)]
pub struct Values<'a> {
    resolution: &'a Resolution,
    symbols: InputSymbols<'a>,
    addresses: Addresses<'a>,
    names: SymbolValueList,
}

impl<'a> Model for Values<'a> {
    ghost use Rattle.lk_symbol_values.specs.SymbolNumbering.{AreValues, ValueInputs};

    ghost Value = { ValueInputs };

    ghost view = { λ v. record { resolution = v.resolution.now; summaries = v.symbols; place = v.addresses } };

    ghost invariant = { λ v. AreValues v.names v.resolution.now.rows v.symbols v.addresses };
}

/// The edge of the thread-local block that a symbol's offset is counted from; 0 for a symbol without a place in the
/// image.
fn block_edge(placed: bool, edge: u64) -> u64
    ensures { result ≡ block_edge placed edge }
{
    if placed { edge } else { 0 }
}

/// The content of a GOT slot of a symbol with this value: the value, or its offset from the end of the thread-local
/// block.
fn content_of(addresses: &Addresses<'_>, thread: bool, value: SymbolValue) -> u64
    ensures { result ≡ content_of addresses.now thread value }
{
    if !thread {
        return value.got_content;
    }
    if value.placed {
        value.got_content.wrapping_sub(addresses.tls_end())
    } else {
        0
    }
}

/// The low bits of the address of the GOT slot of an owner, for its value or for its thread offset; 0 without one.
fn slot_of(addresses: &Addresses<'_>, owner: GotOwner, thread: bool) -> u64
    ensures { result ≡ owner_slot addresses.now owner thread }
{
    addresses.slot_address(GotKey { owner, thread })
}

/// The numbers of a symbol with this value, which has the GOT slots of this owner.
fn symbol_numbers_by(
    addresses: &Addresses<'_>,
    value: SymbolValue,
    owner: GotOwner,
) -> SymbolNumbers
    ensures { result ≡ symbol_numbers_by addresses.now value owner }
{
    SymbolNumbers {
        value: value.value,
        call: value.call,
        size: value.size,
        placed: value.placed,
        slot: slot_of(addresses, owner, false),
        thread_slot: slot_of(addresses, owner, true),
    }
}

/// The address of the GOT slot that a relocation of this type goes through.
fn slot_by(code: u32, symbol_numbers: &SymbolNumbers) -> u64
    ensures { result ≡ slot_by code symbol_numbers.now }
{
    if is_thread_slot(code) {
        symbol_numbers.thread_slot
    } else {
        symbol_numbers.slot
    }
}

/// The numbers of a relocation through a symbol with these numbers.
fn numbers_by(
    addresses: &Addresses<'_>,
    relocation: &Relocation,
    symbol_numbers: &SymbolNumbers,
) -> Numbers
    ensures { result ≡ numbers_by addresses.now relocation.now symbol_numbers.now }
{
    Numbers {
        s: symbol_numbers.value,
        a: relocation.addend,
        p: relocation.address,
        l: symbol_numbers.call,
        slot: slot_by(relocation.code, symbol_numbers),
        got: addresses.got_address(),
        z: symbol_numbers.size,
        tls_start: block_edge(symbol_numbers.placed, addresses.tls_start()),
        tls_end: block_edge(symbol_numbers.placed, addresses.tls_end()),
    }
}

/// The address of an offset in a section with this address; 0 for a section that is not placed (gABI "Relocation",
/// r_offset).
pub fn place_at(start: Option<u64>, offset: u64) -> u64
    ensures { result ≡ place_at start offset }
{
    match start {
        None => 0,
        Some(start) => start.wrapping_add(offset),
    }
}

/// The value of the name with a number in this list.
fn value_or_nothing(values: &[SymbolValue], number: u32) -> SymbolValue
    ensures { result ≡ value_or_nothing (slice_get values.now number) }
{
    match values.get(number as usize) {
        None => NOTHING,
        Some(value) => *value,
    }
}

/// Whether the GOT slot of a relocation of this type holds a thread offset.
fn is_thread_slot(code: u32) -> bool
    ensures { result ≡ is_thread_slot code }
{
    code == GOTTPOFF
}

impl<'a> Values<'a> {
    /// The values of symbols at any placement (gABI "Symbol Table"). `inputs` has the summary of each input.
    ///
    /// # Errors
    /// Out of memory.
    pub fn new(
        alloc: Global,
        resolution: &'a Resolution,
        inputs: &'a SummaryList,
        placement: &'a Placement,
    ) -> Result<Self, NoMemory>
        ensures { IfOk result (λ values. values ≡ record { resolution = resolution.now; summaries = inputs.now; place = placement.now }) }
    {
        let addresses = Addresses::new(alloc, placement)?;
        let made = MadeValues::new(alloc, placement)?;
        let symbols = InputSymbols::new(inputs.as_slice());
        let names = name_values(alloc, &addresses, &made, &symbols, resolution.names())?;
        Ok(Values {
            resolution,
            symbols,
            addresses,
            names,
        })
    }

    /// The resolution of the link.
    pub fn resolution(&self) -> &Resolution
        ensures { result.now ≡ self.now.resolution }
    {
        self.resolution
    }

    /// The placement of the link.
    pub fn placement(&self) -> &Placement
        ensures { result.now ≡ self.now.place }
    {
        self.addresses.placement()
    }

    /// A symbol of an input that is not LOCAL, by its number.
    pub fn global(&self, input: u32, symbol: u32) -> Option<&Symbol>
        ensures { option_copied result ≡ symbol_in self.now.summaries input symbol }
    {
        self.symbols.symbol(input, symbol)
    }

    /// The address of a section of an input (gABI "Section Header", sh_addr of the piece); none for a section that is
    /// not placed. `place_at` gives the address of each offset in the section.
    pub fn piece_start(&self, input: u32, section: u32) -> Option<u64>
        ensures { result ≡ piece_start self.now.place input section }
    {
        self.addresses.section(input, section)
    }

    /// The value of the name with a number. What inputs and placed pieces give of it fits 64 bits.
    fn name_value(&self, number: u32) -> SymbolValue
        ensures value { result ≡ value_at self.now number }
        ensures fits { given_at self.now.summaries self.now.place number (slice_get self.now.resolution.rows number) < 2 ^ 64 }
    {
        value_or_nothing(self.names.as_slice(), number)
    }

    /// The numbers that the name with a number gives to the relocations through it (psABI x86-64 "Relocation Types"):
    /// lk_model's, at a lawful placement. Within the limit on memory its value is S as it is.
    pub fn name_numbers(&self, name: u32) -> SymbolNumbers
        ensures symbol_numbers { (needs : Needs) (options : OptionRecord) (xs : List Input) → IsGiven self.now.resolution self.now.summaries needs options xs → Lawful (resolve options xs) self.now.place → (input : ℕ) (weak : Bool) → result ≡ symbol_numbers_of (resolve options xs) self.now.place input (ByName name weak) }
        ensures exact { (needs : Needs) (options : OptionRecord) (xs : List Input) → IsGiven self.now.resolution self.now.summaries needs options xs → Lawful (resolve options xs) self.now.place → memory_of self.now.place ≤ 2 ^ 31 → result.value ≡ name_value (resolve options xs) self.now.place name }
    {
        let value = self.name_value(name);
        symbol_numbers_by(&self.addresses, value, GotOwner::Global(name))
    }

    /// The numbers that the LOCAL symbol with a number of an input gives to the relocations through it, at any
    /// placement (psABI x86-64 "Relocation Types"); `local` is that symbol as the input has it. Its value is S as it
    /// is.
    pub fn local_numbers(&self, input: u32, symbol: u32, local: &Local) -> SymbolNumbers
        ensures symbol_numbers { (r : Resolved) → local.now ≡ local_of r input symbol → result ≡ symbol_numbers_of r self.now.place input (ByLocal symbol) }
        ensures exact { (r : Resolved) → local.now ≡ local_of r input symbol → result.value ≡ local_value r self.now.place input symbol }
    {
        let value = local_value(&self.addresses, input, local);
        symbol_numbers_by(&self.addresses, value, GotOwner::Local { input, symbol })
    }

    /// The numbers of a relocation through a symbol with these numbers, by their low 64 bits (psABI x86-64 "Relocation
    /// Types"): those of the reference that the relocation is, where the symbol's numbers are lk_model's.
    pub fn numbers(&self, relocation: &Relocation, symbol_numbers: &SymbolNumbers) -> Numbers
        ensures by_parts { result ≡ numbers_by self.now.place relocation.now symbol_numbers.now }
        ensures reported { (r : Resolved) (ref : Ref) → relocation.now ≡ relocation_of self.now.place ref → symbol_numbers.now ≡ symbol_numbers_of r self.now.place ref.input ref.through → result ≡ low_numbers (numbers_of r self.now.place ref) }
    {
        numbers_by(&self.addresses, relocation, symbol_numbers)
    }

    /// The content of the GOT slot of a name, by its low 64 bits (psABI x86-64 "Global Offset Table"): its value, or
    /// its offset from the end of the thread-local block; 0 for an import without a copy.
    pub fn name_slot(&self, name: u32, thread: bool) -> u64
        ensures { (needs : Needs) (options : OptionRecord) (xs : List Input) → IsGiven self.now.resolution self.now.summaries needs options xs → Lawful (resolve options xs) self.now.place → result ≡ low_64 (slot_value (resolve options xs) self.now.place (Some (record { owner = owner.Global name; thread = thread }))) }
    {
        content_of(&self.addresses, thread, self.name_value(name))
    }

    /// The content of the GOT slot of a LOCAL symbol of an input, by its low 64 bits (psABI x86-64 "Global Offset
    /// Table"); `local` is that symbol as the input has it.
    pub fn local_slot(&self, input: u32, symbol: u32, thread: bool, local: &Local) -> u64
        ensures { (r : Resolved) → local.now ≡ local_of r input symbol → result ≡ low_64 (slot_value r self.now.place (Some (record { owner = owner.Local input symbol; thread = thread }))) }
    {
        let value = local_value(&self.addresses, input, local);
        content_of(&self.addresses, thread, value)
    }

    /// The entry address of the program, by its low 64 bits: the value of the symbol with this name; 0 without such a
    /// symbol (gABI "ELF Header", e_entry).
    pub fn entry(&self, name: &Name) -> u64
        ensures { (needs : Needs) (options : OptionRecord) (xs : List Input) → IsGiven self.now.resolution self.now.summaries needs options xs → Lawful (resolve options xs) self.now.place → options.entry ≡ name.now → result ≡ low_64 (entry_value (resolve options xs) self.now.place) }
    {
        match self.resolution.names().find(name) {
            None => 0,
            Some(number) => self.name_value(number).value,
        }
    }
}

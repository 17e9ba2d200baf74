//! Symbols of inputs that are not LOCAL, found by their numbers (gABI "Symbol Table"). In a file that a compiler wrote
//! their numbers go up by one, so that a symbol is as far from the first one as its number is.

ghost use Rattle.std.specs.Prelude.{◌≡◌, find, slice_get, true};
ghost use Rattle.std.specs.List.{list_all};
ghost use Rattle.std.specs.Option.{option_copied};
ghost use Rattle.lk_symbol_values.specs.InputSymbols.{distance, has_number, numbers_rise, rise_from, symbol_in, where_numbered};

use lk_model::summaries::{Global, InputSummary};
use std::marker::Model;

/// The symbols of the inputs of a link. Contracts see them as the summaries.
#[derive(Drop)]
pub(crate) struct InputSymbols<'a> {
    inputs: &'a [InputSummary],
    /// Whether the numbers of each input's symbols rise, as they do in whatever is read of a file.
    rise: bool,
}

impl<'a> Model for InputSymbols<'a> {
    ghost use Rattle.std.specs.Prelude.{◌≡◌, List};
    ghost use Rattle.std.specs.List.{list_all};
    ghost use Rattle.lk_model.specs.declared.summaries.InputSummary.{InputSummary};
    ghost use Rattle.lk_symbol_values.specs.InputSymbols.{numbers_rise};

    ghost Value = { List InputSummary };

    ghost view = { λ s. s.inputs.now };

    ghost invariant = { λ s. s.rise ≡ list_all numbers_rise s.inputs.now };
}

/// Whether the numbers of these symbols rise.
fn rise(globals: &[Global]) -> bool
    ensures { result ≡ rise_from 0 globals.now }
{
    let mut least = 0;
    for global in globals {
        if global.symbol <= least {
            return false;
        }
        least = global.symbol;
    }
    true
}

/// Whether the numbers of an input's symbols rise.
fn numbers_rise(input: &InputSummary) -> bool
    ensures { result ≡ numbers_rise input.now }
{
    rise(input.globals.as_slice())
}

/// Whether the numbers of each input's symbols rise.
fn all_rise(inputs: &[InputSummary]) -> bool
    ensures { result ≡ list_all numbers_rise inputs.now }
{
    inputs.iter().all(|input| numbers_rise(input))
}

/// Whether a symbol has this number.
fn has_number(global: &Global, symbol: u32) -> bool
    ensures { result ≡ has_number symbol global.now }
{
    global.symbol == symbol
}

/// A symbol, where it has this number.
fn where_numbered(global: Option<&Global>, symbol: u32) -> Option<&Global>
    ensures { option_copied result ≡ where_numbered symbol (option_copied global.entry) }
{
    match global {
        None => None,
        Some(global) => {
            if has_number(global, symbol) {
                Some(global)
            } else {
                None
            }
        }
    }
}

/// How many of these symbols, whose numbers rise, have a lower number; the symbol with the number can only be the
/// next one.
fn lower_count(globals: &[Global], symbol: u32) -> usize
    requires { rise_from 0 globals.now ≡ true }
    ensures { find (has_number symbol) globals.now ≡ where_numbered symbol (slice_get globals.now result) }
{
    globals.partition_point(|global| global.symbol < symbol)
}

/// The symbol with a number among these, whose numbers rise.
fn symbol_by_halving(globals: &[Global], symbol: u32) -> Option<&Global>
    requires { rise_from 0 globals.now ≡ true }
    ensures { option_copied result ≡ find (has_number symbol) globals.now }
{
    where_numbered(globals.get(lower_count(globals, symbol)), symbol)
}

/// The symbol at a place among these, where it has this number.
fn symbol_at(globals: &[Global], place: usize, symbol: u32) -> Option<&Global>
    ensures { option_copied result ≡ where_numbered symbol (slice_get globals.now place) }
{
    where_numbered(globals.get(place), symbol)
}

/// How far a number is above that of the first symbol.
fn distance(globals: &[Global], symbol: u32) -> u32
    ensures { result ≡ distance globals.now symbol }
{
    match globals.first() {
        None => 0,
        Some(first) => symbol.saturating_sub(first.symbol),
    }
}

/// The symbol with a number among these, whose numbers rise: the one as far from the first, if it has the number.
fn symbol_of_rising(globals: &[Global], symbol: u32) -> Option<&Global>
    requires { rise_from 0 globals.now ≡ true }
    ensures { option_copied result ≡ find (has_number symbol) globals.now }
{
    match symbol_at(globals, distance(globals, symbol) as usize, symbol) {
        Some(global) => Some(global),
        None => symbol_by_halving(globals, symbol),
    }
}

/// The first symbol with a number among these, one after another.
fn symbol_by_walking(globals: &[Global], symbol: u32) -> Option<&Global>
    ensures { option_copied result ≡ find (has_number symbol) globals.now }
{
    globals.iter().find(|global| has_number(global, symbol))
}

/// The symbol with a number among these.
fn symbol_among(globals: &[Global], rise: bool, symbol: u32) -> Option<&Global>
    requires { rise ≡ true → rise_from 0 globals.now ≡ true }
    ensures { option_copied result ≡ find (has_number symbol) globals.now }
{
    if rise {
        symbol_of_rising(globals, symbol)
    } else {
        symbol_by_walking(globals, symbol)
    }
}

impl<'a> InputSymbols<'a> {
    /// The symbols of these inputs.
    pub(crate) fn new(inputs: &'a [InputSummary]) -> Self
        ensures { result ≡ inputs.now }
    {
        let rise = all_rise(inputs);
        InputSymbols { inputs, rise }
    }

    /// A symbol of an input that is not LOCAL, by its number.
    pub(crate) fn symbol(&self, input: u32, symbol: u32) -> Option<&Global>
        ensures { option_copied result ≡ symbol_in self.now input symbol }
    {
        match self.inputs.get(input as usize) {
            None => None,
            Some(summary) => symbol_among(summary.globals.as_slice(), self.rise, symbol),
        }
    }
}

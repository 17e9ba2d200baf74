//! The numbers of the names of symbols, by input and symbol number (gABI "Symbol Table"): what a symbol's name is
//! found by without its text.

ghost use Rattle.std.specs.Prelude.{◌≡◌, ℕ, ◌==◌, ◌&&◌, ◌<◌, [], cond, get_or, length, min, OnOk};
ghost use Rattle.lk_symtab.specs.NamesOfSymbols.{name_at, no_name, number_at};

use lk_marks::make_room;
use lk_report::NoMemory;
use std::alloc::Global;
use std::marker::Model;

/// The entry of a symbol that was not added: a table has fewer names.
const NO_NAME: u32 = u32::MAX;

/// The numbers of the names of an input's symbols, by symbol number.
#[derive(Drop)]
struct InputNames {
    numbers: Vec<u32>,
}

impl Model for InputNames {
    ghost use Rattle.std.specs.Prelude.{ℕ, List};

    ghost Value = { List ℕ };

    ghost view = { λ n. n.numbers.items };
}

impl InputNames {
    /// No symbol was added.
    fn new(alloc: Global) -> Self
        ensures { result ≡ [] }
    {
        InputNames {
            numbers: Vec::new(alloc),
        }
    }

    /// The entry of a symbol.
    fn number_at(&self, symbol: u32) -> u32
        ensures { result ≡ get_or self.now symbol no_name }
    {
        self.numbers
            .get(symbol as usize)
            .copied()
            .unwrap_or(NO_NAME)
    }

    /// Grows the list until it has an entry for this symbol.
    fn make_room(&mut self, symbol: u32) -> Result<(), NoMemory>
        ensures room { OnOk result (symbol < length self.new) }
        ensures same { (s : ℕ) → get_or self.new s no_name ≡ get_or self.old s no_name }
    {
        make_room(&mut self.numbers, symbol, NO_NAME)
    }

    /// Notes the number of a symbol's name; where several are noted, the least counts.
    fn note(&mut self, symbol: u32, number: u32)
        requires { symbol < length self.old }
        ensures { (s : ℕ) → get_or self.new s no_name ≡ cond (symbol == s) (min number (get_or self.old s no_name)) (get_or self.old s no_name) }
    {
        let entry = &mut self.numbers[symbol as usize];
        *entry = (*entry).min(number);
    }
}

/// The numbers of the names of all symbols, by input and symbol number. Contracts see it as these lists.
#[derive(Drop)]
pub(crate) struct NamesBySymbol {
    alloc: Global,
    inputs: Vec<InputNames>,
}

impl Model for NamesBySymbol {
    ghost use Rattle.std.specs.Prelude.{ℕ, List};

    ghost Value = { List (List ℕ) };

    ghost view = { λ n. n.inputs.items };
}

impl NamesBySymbol {
    /// No symbol was added.
    pub(crate) fn new(alloc: Global) -> Self
        ensures { result ≡ [] }
    {
        NamesBySymbol {
            alloc,
            inputs: Vec::new(alloc),
        }
    }

    /// The number of the name of a symbol of an input; none where it was not added.
    pub(crate) fn name_at(&self, input: u32, symbol: u32) -> Option<u32>
        ensures { result ≡ name_at self.now input symbol }
    {
        let number = self.number_at(input, symbol);
        if number == NO_NAME {
            return None;
        }
        Some(number)
    }

    /// The entry of a symbol of an input.
    fn number_at(&self, input: u32, symbol: u32) -> u32
        ensures { result ≡ number_at self.now input symbol }
    {
        match self.inputs.get(input as usize) {
            Some(names) => names.number_at(symbol),
            None => NO_NAME,
        }
    }

    /// Grows the lists until there is an entry for this symbol of this input. No name changes, also where memory
    /// runs out.
    pub(crate) fn make_room(&mut self, input: u32, symbol: u32) -> Result<(), NoMemory>
        ensures input { OnOk result (input < length self.new) }
        ensures symbol { OnOk result (symbol < length (get_or self.new input [])) }
        ensures same { (i s : ℕ) → number_at self.new i s ≡ number_at self.old i s }
    {
        self.make_inputs(input)?;
        self.inputs[input as usize].make_room(symbol)
    }

    /// Grows the list of inputs until it has this one.
    #[tactic(auto, using(crate::proofs::SymbolsNoted::no_symbols))]
    fn make_inputs(&mut self, input: u32) -> Result<(), NoMemory>
        ensures room { OnOk result (input < length self.new) }
        ensures same { (i s : ℕ) → number_at self.new i s ≡ number_at self.old i s }
    {
        for number in self.inputs.len()..input as usize + 1 {
            let names = InputNames::new(self.alloc);
            let Ok(()) = self.inputs.push(names) else {
                return Err(NoMemory);
            };
        }
        Ok(())
    }

    /// Notes the number of the name of a symbol of an input; where several are noted, the least counts.
    #[tactic(auto, using(crate::proofs::SymbolsNoted::entry_changed))]
    pub(crate) fn note(&mut self, input: u32, symbol: u32, number: u32)
        requires input { input < length self.old }
        requires symbol { symbol < length (get_or self.old input []) }
        ensures { (i s : ℕ) → number_at self.new i s ≡ cond (input == i && symbol == s) (min number (number_at self.old i s)) (number_at self.old i s) }
    {
        self.inputs[input as usize].note(symbol, number);
    }
}

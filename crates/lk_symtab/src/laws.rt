//! What the table has to do with lk_model's names, as the contract of a function that does nothing.

ghost use Rattle.lk_symtab.specs.SymbolLaws.{FoundWhereAdded, MakesOne, MakingKeepsSymbols, NoneWithoutNumber, NumbersStay, SymbolsAtNumber, SymbolsGoOn, SymbolsHaveNames, SymbolsMakeNone, TableIsTheModels};

/// The rows of a table to which all symbols of a list were added in turn, each under its own name, are
/// lk_model's names with their symbols, in order of their first symbol; so they are again with each further
/// symbol. A name has a number exactly where a symbol of it was added; the row with that number has all
/// symbols of the name, and a name without a number has none. A name keeps its number. The linker makes the
/// names that it is asked to make and no others, and that changes no symbol. A symbol whose input and number only
/// symbols of one name have has the number of that name.
pub fn symbols_are_the_models()
    ensures table { TableIsTheModels }
    ensures goes_on { SymbolsGoOn }
    ensures found { FoundWhereAdded }
    ensures at_number { SymbolsAtNumber }
    ensures without_number { NoneWithoutNumber }
    ensures stays { NumbersStay }
    ensures none_made { SymbolsMakeNone }
    ensures one_made { MakesOne }
    ensures kept { MakingKeepsSymbols }
    ensures named { SymbolsHaveNames }
{}

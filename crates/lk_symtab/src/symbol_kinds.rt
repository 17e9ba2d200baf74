//! What a symbol of an input is to its name: a definition of some strength, or none.

ghost use Rattle.std.specs.Prelude.{◌≡◌};
ghost use Rattle.lk_model.specs.Symbols.{is_common, is_object_common, is_object_reference, is_of_object, is_placed, is_shared_definition, is_strong_definition, is_undefined, is_weak, is_weak_definition};
ghost use Rattle.lk_symtab.specs.Bests.{is_global_reference};

use lk_elf::numbers::{STB_GLOBAL, STB_WEAK};
use lk_model::summaries::{Contribution, Home, Kind};

/// Whether a symbol is one of an object.
pub fn is_of_object(symbol: &Contribution) -> bool
    ensures { result ≡ is_of_object symbol.now }
{
    match symbol.kind {
        Kind::Object => true,
        Kind::Shared => false,
    }
}

/// Whether a symbol has a place of its own, which a common has not.
fn is_placed(symbol: &Contribution) -> bool
    ensures { result ≡ is_placed symbol.now }
{
    match symbol.global.home {
        Home::Section(_) | Home::Absolute => true,
        Home::Undefined | Home::Common | Home::Shared => false,
    }
}

/// Whether a symbol is a common block (gABI "Common Symbols").
fn is_common(symbol: &Contribution) -> bool
    ensures { result ≡ is_common symbol.now }
{
    match symbol.global.home {
        Home::Common => true,
        Home::Undefined | Home::Section(_) | Home::Absolute | Home::Shared => false,
    }
}

/// Whether a symbol is a reference.
fn is_undefined(symbol: &Contribution) -> bool
    ensures { result ≡ is_undefined symbol.now }
{
    match symbol.global.home {
        Home::Undefined => true,
        Home::Section(_) | Home::Absolute | Home::Common | Home::Shared => false,
    }
}

/// Whether a symbol is WEAK.
fn is_weak(symbol: &Contribution) -> bool
    ensures { result ≡ is_weak symbol.now }
{
    symbol.global.binding == STB_WEAK as u32
}

/// Whether a symbol is a strong definition in an object.
pub fn is_strong_definition(symbol: &Contribution) -> bool
    ensures { result ≡ is_strong_definition symbol.now }
{
    is_of_object(symbol) && is_placed(symbol) && !is_weak(symbol)
}

/// Whether a symbol is a weak definition in an object.
pub fn is_weak_definition(symbol: &Contribution) -> bool
    ensures { result ≡ is_weak_definition symbol.now }
{
    is_of_object(symbol) && is_placed(symbol) && is_weak(symbol)
}

/// Whether a symbol is a common block of an object.
pub fn is_object_common(symbol: &Contribution) -> bool
    ensures { result ≡ is_object_common symbol.now }
{
    is_of_object(symbol) && is_common(symbol)
}

/// Whether a symbol is a definition in a shared input.
pub fn is_shared_definition(symbol: &Contribution) -> bool
    ensures { result ≡ is_shared_definition symbol.now }
{
    !is_of_object(symbol) && !is_undefined(symbol)
}

/// Whether a symbol is a reference of an object.
pub fn is_object_reference(symbol: &Contribution) -> bool
    ensures { result ≡ is_object_reference symbol.now }
{
    is_of_object(symbol) && is_undefined(symbol)
}

/// Whether a symbol is a reference of an object that wants a definition: an undefined GLOBAL symbol.
pub fn is_global_reference(symbol: &Contribution) -> bool
    ensures { result ≡ is_global_reference symbol.now }
{
    is_object_reference(symbol) && symbol.global.binding == STB_GLOBAL as u32
}

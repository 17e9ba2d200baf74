//! The places of names in a list, looked up by hash: the numbers of dynamic symbols (gABI "Symbol Table") and of the
//! entries of the procedure linkage table (psABI x86-64 "Procedure Linkage Table").

ghost use Rattle.std.specs.Prelude.{◌≡◌, ◌==◌, ◌≤◌, ◌^◌, ℕ, cond, Some, IfOk, OnOk, length, position};
ghost use Rattle.lk_model.specs.DynamicNames.{dynsym_number};
ghost use Rattle.lk_dyn.specs.NamePlaces.{FindsPlaces, number_at, place_of};

use indexmap::IndexMap;
use lk_report::NoMemory;
use std::alloc::Global;
use std::marker::Model;

/// The places of names in a list.
type Places = IndexMap<u32, usize>;

/// Names in a list, by their numbers in the link. Contracts see them as the list of these.
#[derive(Drop)]
pub struct NamePlaces<'a> {
    names: &'a [u32],
    places: Places,
}

impl<'a> Model for NamePlaces<'a> {
    ghost use Rattle.std.specs.Prelude.{ℕ, List};
    ghost use Rattle.lk_dyn.specs.NamePlaces.{FindsPlaces};

    ghost Value = { List ℕ };

    ghost view = { λ d. d.names.now };

    ghost invariant = { λ d. FindsPlaces d.places.entries d.names.now };
}

/// Notes the place of a name, in the stead of what was noted before of it.
fn note_place(places: &mut Places, name: u32, at: usize) -> Result<(), NoMemory>
    ensures { OnOk result ((n : ℕ) → place_of places.new.entries n ≡ cond (name == n) (Some at) (place_of places.old.entries n)) }
{
    match places.insert(name, at) {
        Ok(_) => Ok(()),
        Err(_) => Err(NoMemory),
    }
}

/// The first places of these names.
fn first_places(alloc: Global, names: &[u32]) -> Result<Places, NoMemory>
    ensures { IfOk result (λ places. FindsPlaces places.entries names.now) }
{
    let mut places = IndexMap::new(alloc);
    for at in (0..names.len()).rev() {
        note_place(&mut places, names[at], at)?;
    }
    Ok(places)
}

/// The first place of a name.
fn place_of(places: &Places, name: u32) -> Option<usize>
    ensures { result ≡ place_of places.now.entries name }
{
    places.get(&name).copied()
}

/// The number of a symbol at a place; the one behind all for none.
fn number_at(count: usize, at: Option<usize>) -> u128
    ensures number { result ≡ number_at count at }
    ensures few { result ≤ 2 ^ 64 }
{
    match at {
        None => count as u128 + 1,
        Some(at) => at as u128 + 1,
    }
}

impl<'a> NamePlaces<'a> {
    /// The names with these numbers, in their order.
    ///
    /// # Errors
    /// Out of memory.
    pub fn new(alloc: Global, names: &'a [u32]) -> Result<Self, NoMemory>
        ensures { IfOk result (λ numbers. numbers ≡ names.now) }
    {
        let places = first_places(alloc, names)?;
        Ok(NamePlaces { names, places })
    }

    /// The first place of a name, from 0; none for a name that is not in the list.
    pub fn place(&self, name: u32) -> Option<usize>
        ensures { result ≡ position (λ n. n == name) self.now }
    {
        place_of(&self.places, name)
    }

    /// The number of the dynamic symbol of a name, the null symbol counted, where these are the dynamic names; the one
    /// behind all for a name without one.
    pub(crate) fn number(&self, name: u32) -> u128
        ensures number { result ≡ dynsym_number self.now name }
        ensures few { result ≤ 2 ^ 64 }
    {
        number_at(self.names.len(), place_of(&self.places, name))
    }
}

//! Which members of a lib group define a name: a map from each name to the places of the members that have a
//! symbol of it with a place, looked up by hash.

ghost use Rattle.std.specs.Prelude.{◌≡◌, ◌<◌, [], ◌∷◌, length, IfOk, OnOk};
ghost use Rattle.lk_resolve.specs.Definers.{AreNoted, DefinersAre, IsNoted, IsPutAt, places_under, with_places};

use crate::members::Member;
use crate::wanted_names::is_home_placed;
use indexmap::IndexMap;
use lk_model::summaries::Global as Symbol;
use lk_report::{List, NoMemory};
use std::alloc::Global;

/// The places of members by the names that they define.
#[derive(Drop)]
pub struct Definers<'m> {
    places: IndexMap<&'m [u8], List<usize>>,
}

/// The list of one place.
fn list_of(alloc: Global, place: usize) -> Result<List<usize>, NoMemory>
    ensures { IfOk result (λ list. list ≡ place ∷ []) }
{
    let mut list = List::new(alloc);
    list.push(place)?;
    Ok(list)
}

impl<'m> Definers<'m> {
    /// No member.
    fn new(alloc: Global) -> Definers<'m>
        ensures { result.places.entries ≡ [] }
    {
        Definers {
            places: IndexMap::new(alloc),
        }
    }

    /// The places of the members that define a name.
    pub fn of(&self, name: &[u8]) -> &[usize]
        ensures { result.now ≡ places_under self.now.places.entries name.now }
    {
        match self.places.get(name) {
            Some(places) => places.as_slice(),
            None => &[],
        }
    }

    /// Notes that the member at a place defines a name.
    fn note(&mut self, alloc: Global, name: &'m [u8], place: usize) -> Result<(), NoMemory>
        ensures { OnOk result (IsNoted self.old self.new name.now place) }
    {
        match self.places.get_index_of(name) {
            Some(n) => self.note_again(n, place),
            None => self.note_first(alloc, name, place),
        }
    }

    /// Puts a place to those of a name that has some.
    fn note_again(&mut self, n: usize, place: usize) -> Result<(), NoMemory>
        requires { n < length self.old.places.entries }
        ensures { OnOk result (IsPutAt self.old.places.entries self.new.places.entries n place) }
    {
        let (_, places) = self.places.pair_mut(n);
        places.push(place)
    }

    /// Puts the first place of a name.
    fn note_first(&mut self, alloc: Global, name: &'m [u8], place: usize) -> Result<(), NoMemory>
        ensures { OnOk result (self.new.places.entries ≡ with_places self.old.places.entries name.entry (place ∷ [])) }
    {
        let list = list_of(alloc, place)?;
        match self.places.insert(name, list) {
            Ok(_) => Ok(()),
            Err(_) => Err(NoMemory),
        }
    }
}

/// Notes which names a member defines.
fn note_symbols<'m>(
    alloc: Global,
    definers: &mut Definers<'m>,
    symbols: &'m [Symbol],
    place: usize,
) -> Result<(), NoMemory>
    ensures { OnOk result (AreNoted definers.old definers.new symbols.now place) }
{
    for symbol in symbols {
        if is_home_placed(symbol.home) {
            definers.note(alloc, symbol.name.as_slice(), place)?;
        }
    }
    Ok(())
}

/// The members that define each name.
pub fn definers_of<'m>(
    alloc: Global,
    members: &[Option<Member<'m>>],
) -> Result<Definers<'m>, NoMemory>
    ensures { IfOk result (λ definers. DefinersAre definers members.now) }
{
    let mut definers = Definers::new(alloc);
    for (place, member) in members.iter().enumerate() {
        if let Some(member) = member {
            note_symbols(
                alloc,
                &mut definers,
                member.summary.globals.as_slice(),
                place,
            )?;
        }
    }
    Ok(definers)
}

//! The search round the members of a lib group by names: each member is asked once, and again only once it
//! defines a name that was not wanted before and is then. So the search takes time by the symbols of the
//! members, where passes round them look all symbols up again for each pass.

ghost use Rattle.std.specs.Prelude.{◌≡◌, ◌<◌, ℕ, cond, false, true, length, get_or, map, None, Some, IfOk, OnOk};
ghost use Rattle.std.specs.Bool.{OnFalse};
ghost use Rattle.lk_resolve.specs.NameSearches.{AreDefiners, AskedAt, NextAdded, PlacesGiven, TurnsGiven, WantedAreDue, names_as, queue_at, unwanted_in};
ghost use Rattle.lk_resolve.specs.Searches.{member_as, members_as, searched};
ghost use Rattle.lk_resolve.specs.Turns.{is_due};
ghost use Rattle.lk_resolve.specs.Wanted.{wants};

use crate::definers::{Definers, definers_of};
use crate::members::Member;
use crate::state::ResolverState;
use crate::turns::Turns;
use lk_model::summaries::Global as Symbol;
use lk_report::{List, Name, NoMemory};
use std::alloc::Global;

/// The names of symbols that are not wanted.
fn unwanted_names<'s>(
    alloc: Global,
    state: &ResolverState,
    symbols: &'s [Symbol],
) -> Result<List<&'s Name>, NoMemory>
    ensures { IfOk result (λ names. names_as names ≡ unwanted_in state.now symbols.now) }
{
    let mut names = List::new(alloc);
    for symbol in symbols {
        if !state.is_wanted(&symbol.name) {
            names.push(&symbol.name)?;
        }
    }
    Ok(names)
}

/// Gives places their turns.
fn give_places(turns: &mut Turns, places: &[usize]) -> Result<(), NoMemory>
    ensures given { OnOk result (PlacesGiven turns.old turns.new places.now) }
    ensures place { turns.new.place ≡ turns.old.place }
{
    for place in places {
        turns.give(*place)?;
    }
    Ok(())
}

/// Gives the members their turns that define one of these names which is wanted.
fn give_turns(
    state: &ResolverState,
    definers: &Definers,
    turns: &mut Turns,
    names: &[&Name],
) -> Result<(), NoMemory>
    ensures given { OnOk result (TurnsGiven state.now definers.now (names_as names.now) turns.old turns.new) }
    ensures place { turns.new.place ≡ turns.old.place }
{
    for name in names {
        if state.is_wanted(name) {
            give_places(turns, definers.of(name.as_slice()))?;
        }
    }
    Ok(())
}

/// Whether a member may be wanted: where no symbol of it with a place has a wanted name it is not.
fn may_be_wanted(state: &ResolverState, member: &Member) -> bool
    ensures { OnFalse result (wants state.now (member_as member.now) ≡ false) }
{
    state.places_wanted(member.summary.globals.as_slice())
}

/// Asks the member at a place, where one waits there: whether it was added.
fn ask(
    alloc: Global,
    state: &mut ResolverState,
    definers: &Definers,
    turns: &mut Turns,
    members: &mut [Option<Member>],
    place: usize,
) -> Result<bool, NoMemory>
    ensures { IfOk result (λ added. AskedAt definers.now place (get_or members.old place None) added state.old state.new turns.old turns.new members.old members.new) }
{
    if place >= members.len() {
        return Ok(false);
    }
    let Some(member) = members[place] else {
        return Ok(false);
    };
    if !may_be_wanted(state, &member) {
        return Ok(false);
    }
    let unwanted = unwanted_names(alloc, state, member.summary.globals.as_slice())?;
    if !state.add_wanted(member.number, member.summary)? {
        return Ok(false);
    }
    give_turns(state, definers, turns, unwanted.as_slice())?;
    members[place] = None;
    Ok(true)
}

/// Asks member after member, each when its turn comes, until one is added: whether one was.
fn add_next(
    alloc: Global,
    state: &mut ResolverState,
    definers: &Definers,
    turns: &mut Turns,
    members: &mut [Option<Member>],
) -> Result<bool, NoMemory>
    requires due { WantedAreDue state.old members.old turns.old }
    requires reported { AreDefiners definers.now members.old }
    ensures { IfOk result (λ added. NextAdded definers.now added state.old state.new turns.old turns.new members.old members.new) }
{
    'turns: while let Some(place) = turns.take() {
        if ask(alloc, state, definers, turns, members, place)? {
            return Ok(true);
        }
    }
    Ok(false)
}

/// Adds those of the members that are wanted, each when its turn comes.
fn add_all(
    alloc: Global,
    state: &mut ResolverState,
    definers: &Definers,
    turns: &mut Turns,
    members: &mut [Option<Member>],
) -> Result<(), NoMemory>
    requires due { WantedAreDue state.old members.old turns.old }
    requires reported { AreDefiners definers.now members.old }
    ensures { OnOk result (state.new ≡ searched state.old (queue_at members.old turns.old.place)) }
{
    'members: while add_next(alloc, state, definers, turns, members)? {}
    Ok(())
}

/// Members that wait, each at its place.
fn placed<'m>(alloc: Global, waiting: &[Member<'m>]) -> Result<Vec<Option<Member<'m>>>, NoMemory>
    ensures { IfOk result (λ members. members.items ≡ map (λ m. Some m) waiting.now) }
{
    let mut members = Vec::new(alloc);
    for member in waiting {
        if members.push(Some(*member)).is_err() {
            return Err(NoMemory);
        }
    }
    Ok(members)
}

/// The turns of so many places, each of which is to be asked.
fn all_turns(alloc: Global, places: usize) -> Result<Turns, NoMemory>
    ensures due { IfOk result (λ turns. (i : ℕ) → i < places → is_due turns i ≡ true) }
    ensures place { IfOk result (λ turns. turns.place ≡ 0) }
{
    let mut turns = Turns::new(alloc);
    for place in 0..places {
        turns.give(place)?;
    }
    Ok(turns)
}

/// Adds those of the members that are wanted, each when its turn comes.
pub fn search_by_names<'m>(
    alloc: Global,
    state: &mut ResolverState,
    waiting: &[Member<'m>],
) -> Result<(), NoMemory>
    ensures { OnOk result (state.new ≡ searched state.old (members_as waiting.now)) }
{
    let mut members = placed(alloc, waiting)?;
    let definers = definers_of(alloc, members.as_slice())?;
    let mut turns = all_turns(alloc, waiting.len())?;
    add_all(alloc, state, &definers, &mut turns, members.as_mut_slice())?;
    Ok(())
}

//! The places of each actor's changes, in the order of their sequence numbers.

ghost use Rattle.std.specs.Prelude.{◌≡◌, ◌≤◌, ◌<◌, ◌+◌, [], ◌∷◌, ◌++◌, ℕ, List, Some, None, if◌then◌else◌, length, IfOk, OnOk, OnErr, IsTrue};
ghost use Rattle.std.specs.List.{slice_get};
ghost use Rattle.std.specs.Map.{keys_of, values_of};
ghost use Rattle.tp_list.specs.Members.{AllIn, In};
ghost use Rattle.tp_opid.specs.declared.actor.Actor.{Actor};
ghost use Rattle.tp_opid.specs.Same.{same_actor};
ghost use Rattle.tp_layout.specs.declared.parts.ChangeParts.{ChangeParts};
ghost use Rattle.tp_history.specs.ByActor.{actor_word, listed_places, option_items, place_by, place_if_by, places_of, AreBelow, HasActorAt, ArePlacesBy, IsByActor, AreSamePlaces};
ghost use Rattle.tp_history.specs.Fit.{most_changes};
ghost use Rattle.tp_history.specs.Places.{noted_word};
ghost use Rattle.tp_history.specs.Sound.{Sound};

use crate::actor_changes::{ActorChanges, Listed};
use std::alloc::{AllocError, Global};
use std::collections::BTreeMap;
use std::marker::Model;
use tp_change::Change;
use tp_list::copy_with_room;
use tp_opid::Actor;

/// Places of changes, rising.
#[derive(Drop)]
struct Places {
    items: Vec<u32>,
}

impl Model for Places {
    ghost use Rattle.std.specs.Prelude.{ℕ, List};

    ghost Value = { List ℕ };

    ghost view = { λ p. p.items.items };
}

impl Clone for Places {
    ghost is_clone = { λ p q. q ≡ p };

    fn clone(&self) -> Result<Places, AllocError> {
        Ok(Places {
            items: copy_with_room(*self.items.allocator(), self.items.as_slice())?,
        })
    }
}

impl Places {
    fn one(alloc: Global, place: u32) -> Result<Places, AllocError>
        ensures { IfOk result (λ places. places ≡ place ∷ []) }
    {
        let mut items = Vec::new(alloc);
        items.push(place)?;
        Ok(Places { items })
    }

    fn push(&mut self, place: u32) -> Result<(), AllocError>
        ensures ok { OnOk result (self.new ≡ self.old ++ place ∷ []) }
        ensures err { OnErr result (self.new ≡ self.old) }
    {
        self.items.push(place)?;
        Ok(())
    }

    fn as_slice(&self) -> &[u32]
        ensures { result.now ≡ self.now }
    {
        self.items.as_slice()
    }
}

/// The places of each actor's changes among the first `listed` changes, which are all or all but the last.
///
/// The place of an actor's first change is noted in `firsts` by the first 4 bytes of the actor, where no earlier actor's
/// is noted under the same 4; the places of its other changes, or of all where its 4 bytes clash, have a list in
/// `lists`. So an actor with one change takes an entry of 8 bytes and no list. A noted place is trusted only where the
/// change there is the actor's.
///
/// A change enters without memory, so it is listed only when the next one is made ready for. The maps are ordered:
/// whatever actors strangers choose, a look-up takes a number of comparisons that grows with the logarithm of the number
/// of actors.
#[derive(Drop)]
pub struct ByActor {
    firsts: BTreeMap<u32, u32>,
    lists: BTreeMap<Actor, Places>,
    listed: usize,
}

impl Clone for ByActor {
    ghost is_clone = { AreSamePlaces };

    fn clone(&self) -> Result<ByActor, AllocError> {
        Ok(ByActor {
            firsts: self.firsts.clone()?,
            lists: self.lists.clone()?,
            listed: self.listed,
        })
    }
}

// The first 4 bytes of the actor as a number.
#[tactic(auto, unfolding(crate::specs::ByActor::actor_word))]
fn word_of(actor: &Actor) -> u32
    ensures { result ≡ actor_word actor.now }
{
    let bytes = actor.0;
    u32::from_be_bytes([bytes[0], bytes[1], bytes[2], bytes[3]])
}

// The place, where there is a change of the actor's.
fn if_by(changes: &[Change], place: usize, actor: &Actor) -> Option<usize>
    ensures { option_items result ≡ place_if_by place (slice_get changes.now place) actor.now }
{
    if place < changes.len() {
        if changes[place].actor().is(actor) {
            Some(place)
        } else {
            None
        }
    } else {
        None
    }
}

// The noted place, where the change there is the actor's.
fn noted_place(changes: &[Change], noted: Option<u32>, actor: &Actor) -> Option<usize>
    ensures { option_items result ≡ place_by changes.now noted actor.now }
{
    match noted {
        Some(place) => if_by(changes, place as usize, actor),
        None => None,
    }
}

// Adds the actor of the change at the place, where there is one.
fn add_at(changes: &[Change], place: usize, actors: &mut Vec<Actor>) -> Result<(), AllocError>
    ensures before { OnOk result (AllIn actors.old.items actors.new.items) }
    ensures at { OnOk result (HasActorAt changes.now place actors.new.items) }
{
    if changes.len() <= place {
        return Ok(());
    }
    actors.push(changes[place].actor())?;
    Ok(())
}

impl ByActor {
    /// No changes. It takes no memory.
    pub fn new(alloc: Global) -> ByActor
        ensures { IsByActor [] result }
    {
        ByActor {
            firsts: BTreeMap::new(alloc),
            lists: BTreeMap::new(alloc),
            listed: 0,
        }
    }

    // The place noted for the first 4 bytes of an actor.
    fn by_word(&self, word: u32) -> Option<u32>
        ensures { result ≡ noted_word self.now.firsts.entries word }
    {
        self.firsts.get(&word).copied()
    }

    // The places in the list of the actor.
    #[tactic(auto, unfolding(tp_opid::specs::Order::actor_cmp, tp_opid::specs::Same::same_actor))]
    fn more(&self, actor: &Actor) -> &[u32]
        ensures { result.now ≡ places_of self.now.lists.entries actor.now }
    {
        match self.lists.get(actor) {
            Some(places) => places.as_slice(),
            None => &[],
        }
    }

    // The places that are listed for the actor.
    fn places(&self, changes: &[Change], actor: &Actor) -> Listed<'_>
        ensures { option_items result.first ++ result.more.now
            ≡ listed_places changes.now self.now actor.now }
    {
        Listed {
            first: noted_place(changes, self.by_word(word_of(actor)), actor),
            more: self.more(actor),
        }
    }

    /// The places of the actor's changes: those that are listed, and that of the last change, where it is the actor's
    /// and isn't listed yet.
    pub fn changes_by(&self, changes: &[Change], actor: &Actor) -> ActorChanges<'_>
        requires sound { Sound changes.now }
        requires by_actor { IsByActor changes.now self.now }
        ensures { ArePlacesBy changes.now actor.now result }
    {
        let places = self.places(changes, actor);
        if self.listed == changes.len() {
            return ActorChanges::new(places);
        }
        if changes[self.listed].actor().is(actor) {
            ActorChanges::with_last(places, self.listed)
        } else {
            ActorChanges::new(places)
        }
    }

    // Adds the actors of the changes at the places that are noted.
    fn add_noted(&self, changes: &[Change], actors: &mut Vec<Actor>) -> Result<(), AllocError>
        ensures before { OnOk result (AllIn actors.old.items actors.new.items) }
        ensures noted { OnOk result ((p : ℕ) → In p (values_of self.now.firsts.entries)
            → HasActorAt changes.now p actors.new.items) }
    {
        for place in self.firsts.values() {
            add_at(changes, *place as usize, actors)?;
        }
        Ok(())
    }

    // Adds the actors that have a list.
    fn add_listed(&self, actors: &mut Vec<Actor>) -> Result<(), AllocError>
        ensures before { OnOk result (AllIn actors.old.items actors.new.items) }
        ensures listed { OnOk result (AllIn (keys_of self.now.lists.entries) actors.new.items) }
    {
        for actor in self.lists.keys() {
            actors.push(*actor)?;
        }
        Ok(())
    }

    /// The actors of the changes. Some may come twice: each that has a list, and each with a noted place.
    pub fn actors(&self, alloc: Global, changes: &[Change]) -> Result<Vec<Actor>, AllocError>
        requires sound { Sound changes.now }
        requires by_actor { IsByActor changes.now self.now }
        ensures { IfOk result (λ v. (c : ChangeParts) → In c changes.now → In c.actor v.items) }
    {
        let mut actors = Vec::new(alloc);
        self.add_noted(changes, &mut actors)?;
        self.add_listed(&mut actors)?;
        add_at(changes, self.listed, &mut actors)?;
        Ok(actors)
    }

    // Whether no place is noted for the first 4 bytes of the actor, and it has no list.
    fn is_new(&self, actor: &Actor) -> bool
        ensures noted { IsTrue result → noted_word self.now.firsts.entries (actor_word actor.now) ≡ None }
        ensures more { IsTrue result → places_of self.now.lists.entries actor.now ≡ [] }
    {
        if self.by_word(word_of(actor)).is_some() {
            return false;
        }
        self.more(actor).is_empty()
    }

    // Puts a place at the end of the list of an actor.
    fn put_more(&mut self, alloc: Global, actor: Actor, place: u32) -> Result<(), AllocError>
        ensures listed { self.new.listed ≡ self.old.listed }
        ensures firsts { self.new.firsts ≡ self.old.firsts }
        ensures ok { OnOk result ((a : Actor) → places_of self.new.lists.entries a
            ≡ places_of self.old.lists.entries a ++ (if same_actor actor a then place ∷ [] else [])) }
        ensures err { OnErr result ((a : Actor) → places_of self.new.lists.entries a
            ≡ places_of self.old.lists.entries a) }
    {
        match self.lists.get_mut(&actor) {
            Some(places) => places.push(place)?,
            None => {
                let places = Places::one(alloc, place)?;
                self.lists.insert(actor, places)?;
            }
        }
        Ok(())
    }

    // Puts the place of a change of the actor's after those of its earlier ones.
    fn put(&mut self, alloc: Global, actor: Actor, place: u32) -> Result<(), AllocError>
        ensures listed { self.new.listed ≡ self.old.listed }
        ensures below { OnOk result (AreBelow place self.old.firsts.entries
            → AreBelow (place + 1) self.new.firsts.entries) }
        ensures ok { OnOk result ((C : List ChangeParts) (c : ChangeParts) (a : Actor)
            → slice_get C place ≡ Some c → c.actor ≡ actor → listed_places C self.new a
            ≡ listed_places C self.old a ++ (if same_actor actor a then place ∷ [] else [])) }
        ensures firsts { OnErr result (self.new.firsts.entries ≡ self.old.firsts.entries) }
        ensures more { OnErr result ((a : Actor) → places_of self.new.lists.entries a
            ≡ places_of self.old.lists.entries a) }
    {
        if self.is_new(&actor) {
            self.firsts.insert(word_of(&actor), place)?;
            return Ok(());
        }
        self.put_more(alloc, actor, place)
    }

    /// Lists the last change, where it isn't listed yet.
    pub fn catch_up(&mut self, alloc: Global, changes: &[Change]) -> Result<(), AllocError>
        requires sound { Sound changes.now }
        requires few { length changes.now ≤ most_changes }
        requires by_actor { IsByActor changes.now self.old }
        ensures by_actor { IsByActor changes.now self.new }
        ensures ok { OnOk result (self.new.listed ≡ length changes.now) }
        ensures err { OnErr result (self.new.listed ≡ self.old.listed) }
    {
        let place = self.listed;
        if place == changes.len() {
            return Ok(());
        }
        self.put(alloc, changes[place].actor(), place as u32)?;
        self.listed = place + 1;
        Ok(())
    }
}

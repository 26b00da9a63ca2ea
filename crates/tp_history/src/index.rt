//! A table from hashes to places.

ghost use Rattle.std.specs.Prelude.{◌≡◌, ◌≢◌, ◌↔◌, ◌⊎◌, ℕ, ◌+◌, ◌*◌, ◌<◌, ◌≤◌, ◌^◌, List, [], false, true, None, Some, length, IsTrue, IfOk, IfSome, OnOk, OnErr};
ghost use Rattle.std.specs.List.{slice_get};
ghost use Rattle.tp_layout.specs.declared.parts.ChangeParts.{ChangeParts};
ghost use Rattle.tp_history.specs.Fit.{most_changes};
ghost use Rattle.tp_history.specs.Named.{has};
ghost use Rattle.tp_history.specs.Notes.{note_at, first_word, first_slot, place_in, IsLike, IsSlotFor, IsReached, IsFree, IsNotedAt, AreNoted, FindsPlace, StandStill, HasPlace, AreNotedWith, AreInSlots, AreCarried, IsNotedBeside};
ghost use Rattle.tp_history.specs.Places.{place_from, HasAt};
ghost use Rattle.tp_history.specs.Sound.{Sound};

use std::alloc::{AllocError, Global};
use std::collections::BTreeMap;
use std::marker::Model;
use tp_change::Change;
use tp_opid::Hash;

/// The place of a hash may be in this many slots, from a first one on.
pub(crate) const WINDOW: usize = 32;

/// What is in a slot that was never taken.
pub(crate) const NOWHERE: u32 = 4_294_967_295;

// Windows begin at this many slots at least.
const FEWEST: usize = 16;

/// From the hash of a change to its place in applied order: an open-addressing table with linear probing over a bounded
/// window, by the first 4 bytes of the hash, and an ordered map by whole hashes for what finds no room in its window.
///
/// Windows begin at two to four slots for each change, 16 at least, and after these come slots for the rest of the last
/// window, one less than it has. A slot has 4 bytes, so a change takes 8 to 16. Where a larger table is refused there
/// are fewer, until memory is granted.
///
/// A slot notes a place in its last bits, as many as tell where windows begin. The bits before these are those of the
/// word that it was taken for, so that of the changes that a look-up comes by, it looks hardly at any but the right
/// one. They are 10 at 1,048,577 changes, one fewer at each doubling, and none past 2^30 changes: from there on a
/// look-up looks at each change that it comes by. Past 2^31 changes half of a new table's slots serve nothing, since
/// there are 2^32 words: its windows get fuller, and more goes to the map.
///
/// Of a million hashes that are what chance gives, a few find no room. Whatever hashes strangers choose, a look-up
/// comes by the slots of one window at most, and then makes a number of comparisons that grows with the logarithm of
/// the number of changes.
#[derive(Drop)]
pub struct Index {
    slots: Vec<u32>,
    clashing: BTreeMap<Hash, u32>,
}

impl Model for Index {
    ghost use Rattle.tp_history.specs.Notes.{Notes};

    ghost Value = { Notes };

    ghost view = { λ a. record { slots = a.slots.items; hashes = a.clashing.entries } };
}

impl Clone for Index {
    ghost is_clone = { λ a b. b ≡ a };

    fn clone(&self) -> Result<Index, AllocError> {
        Ok(Index {
            slots: Vec::from_slice(*self.slots.allocator(), self.slots.as_slice())?,
            clashing: self.clashing.clone()?,
        })
    }
}

// The first 4 bytes of the hash as a number.
#[tactic(auto, unfolding(crate::specs::Notes::first_word))]
fn word_of(hash: &Hash) -> u32
    ensures { result ≡ first_word hash.now }
{
    let bytes = hash.0;
    u32::from_be_bytes([bytes[0], bytes[1], bytes[2], bytes[3]])
}

// The first slot of the window of a word, in a table of `slots`: the last bits of the word, where the slots that
// windows begin at are a power of two.
fn first_of(word: u32, slots: usize) -> usize
    requires { WINDOW ≤ slots }
    ensures first { result ≡ first_slot word slots }
    ensures within { result + WINDOW ≤ slots }
{
    word as usize & (slots - WINDOW)
}

// How many slots a table for `count` changes and as many more has: windows begin at four for each change or more, and
// at a power of two.
fn slots_for(count: usize) -> usize
    requires { count < 2 ^ 32 }
    ensures least { 4 * count + WINDOW ≤ result + 1 }
    ensures most { result < 8 * count + FEWEST + WINDOW }
{
    (4 * count).next_power_of_two().max(FEWEST) + WINDOW - 1
}

// The place that a slot notes, in a table of `slots`.
fn place_in(slot: u32, slots: usize) -> usize
    requires { WINDOW ≤ slots }
    ensures { result ≡ place_in slots slot }
{
    slot as usize & (slots - WINDOW)
}

// Whether a slot may have been taken for the word, in a table of `slots`: their bits before those of a place are
// the same.
fn is_like(slot: u32, word: u32, slots: usize) -> bool
    requires { WINDOW ≤ slots }
    ensures { IsTrue result ↔ IsLike slots slot word }
{
    let places = slots - WINDOW;
    slot as usize | places == word as usize | places
}

// The slot that notes the place for the word, in a table of `slots`. There is one where the bits of a place
// suffice for it, as they do but in a table that was long refused its growth, and where that isn't what is in a
// slot that was never taken.
fn slot_for(word: u32, place: u32, slots: usize) -> Option<u32>
    requires { WINDOW ≤ slots }
    ensures { IfSome result (IsSlotFor slots word place) }
{
    let slot = (word as usize & !(slots - WINDOW)) as u32 | place;
    let is_right = place_in(slot, slots) == place as usize && is_like(slot, word, slots);
    if is_right && slot != NOWHERE {
        Some(slot)
    } else {
        None
    }
}

// The first slot of the window of the word that was never taken, or notes no place before the given one.
fn free(slots: &[u32], word: u32, place: u32) -> Option<usize>
    ensures { IfSome result (IsFree slots.now word place) }
{
    if slots.len() < WINDOW {
        return None;
    }
    let first = first_of(word, slots.len());
    for number in first..first + WINDOW {
        let slot = slots[number];
        if slot == NOWHERE || place as usize <= place_in(slot, slots.len()) {
            return Some(number);
        }
    }
    None
}

// The first slot of the window of the word that was never taken.
fn untaken(slots: &[u32], word: u32) -> Option<usize>
    ensures { IfSome result (IsFree slots.now word NOWHERE) }
{
    if slots.len() < WINDOW {
        return None;
    }
    let first = first_of(word, slots.len());
    for number in first..first + WINDOW {
        if slots[number] == NOWHERE {
            return Some(number);
        }
    }
    None
}

// Notes the place for the word in the slot with the number, which a look-up of the word gets to. Whether the slot can
// note it.
fn fill(slots: &mut [u32], number: usize, word: u32, place: u32) -> bool
    requires { IsReached slots.old word number }
    ensures there { IsTrue result → FindsPlace slots.new word place }
    ensures still { (bound : ℕ) → IsFree slots.old word bound number → StandStill slots.old slots.new bound }
    ensures full { result ≡ false → slots.new ≡ slots.old }
{
    match slot_for(word, place, slots.len()) {
        Some(slot) => {
            slots[number] = slot;
            true
        }
        None => false,
    }
}

// Notes the place for the word in the first slot of its window that notes no earlier one. Whether there is such a slot.
fn take_free(slots: &mut [u32], word: u32, place: u32) -> bool
    ensures there { IsTrue result → FindsPlace slots.new word place }
    ensures still { StandStill slots.old slots.new place }
    ensures full { result ≡ false → slots.new ≡ slots.old }
{
    match free(slots, word, place) {
        Some(number) => fill(slots, number, word, place),
        None => false,
    }
}

// Notes the place for the word in the first slot of its window that was never taken. Whether there is such a slot.
fn take_untaken(slots: &mut [u32], word: u32, place: u32) -> bool
    ensures there { IsTrue result → FindsPlace slots.new word place }
    ensures still { StandStill slots.old slots.new NOWHERE }
{
    match untaken(slots, word) {
        Some(number) => fill(slots, number, word, place),
        None => false,
    }
}

// The hash that a place is noted for: that of the change there, or after all changes the last one.
fn hash_at(changes: &[Change], last: &Hash, place: usize) -> Hash
    requires { place ≤ length changes.now }
    ensures { HasPlace changes.now last.now place result }
{
    if place < changes.len() {
        changes[place].hash()
    } else {
        *last
    }
}

// Whether the place is marked.
fn is_marked(marks: &[bool], place: usize) -> bool
    ensures { result ≡ false → slice_get marks.now place ≢ Some true }
{
    if place < marks.len() {
        marks[place]
    } else {
        false
    }
}

impl Index {
    /// No entry. It takes no memory.
    pub fn new(alloc: Global) -> Index
        ensures slots { result.slots ≡ [] }
        ensures hashes { result.hashes ≡ [] }
    {
        Index {
            slots: Vec::new(alloc),
            clashing: BTreeMap::new(alloc),
        }
    }

    // The place of the change with the hash, where a slot notes it. A slot that was never taken ends the window.
    fn by_word(&self, changes: &[Change], hash: &Hash) -> Option<usize>
        requires { length changes.now ≤ most_changes }
        ensures there { IfSome result (λ place. HasAt changes.now place hash.now) }
        ensures within { IfSome result (λ place. place < length changes.now) }
        ensures found { result ≡ None → (p : ℕ) → FindsPlace self.now.slots (first_word hash.now) p
            → HasAt changes.now p hash.now → ⊥ }
    {
        if self.slots.len() < WINDOW {
            return None;
        }
        let word = word_of(hash);
        let first = first_of(word, self.slots.len());
        for number in first..first + WINDOW {
            let slot = self.slots[number];
            if slot == NOWHERE {
                return None;
            }
            if is_like(slot, word, self.slots.len()) {
                let place = place_in(slot, self.slots.len());
                if has_at(changes, place, hash) {
                    return Some(place);
                }
            }
        }
        None
    }

    // The place noted for a whole hash.
    #[tactic(auto, unfolding(tp_opid::specs::Order::hash_cmp, tp_opid::specs::Same::same_hash))]
    fn by_hash(&self, hash: &Hash) -> Option<u32>
        ensures { result ≡ note_at self.now.hashes hash.now }
    {
        self.clashing.get(hash).copied()
    }

    // Notes the place after those of all changes for a hash that none of them has.
    fn put(&mut self, hash: &Hash, place: u32) -> Result<(), AllocError>
        ensures notes { OnOk result ((C : List ChangeParts) → place ≡ length C → has C hash.now ≡ false
            → AreNoted C self.old → AreNoted C self.new) }
        ensures at { OnOk result (IsNotedAt self.new hash.now place) }
        ensures err { OnErr result (self.new ≡ self.old) }
        ensures len { length self.new.slots ≡ length self.old.slots }
    {
        if take_free(self.slots.as_mut_slice(), word_of(hash), place) {
            return Ok(());
        }
        self.clashing.insert(*hash, place)?;
        Ok(())
    }

    // Notes it in a first table, or where that is refused in the map.
    fn begin(&mut self, alloc: Global, count: usize, hash: &Hash) -> Result<(), AllocError>
        requires few { count < most_changes }
        requires none { length self.old.slots < WINDOW }
        ensures notes { OnOk result ((C : List ChangeParts) → count ≡ length C → has C hash.now ≡ false
            → AreNoted C self.old → AreNoted C self.new) }
        ensures at { OnOk result (IsNotedAt self.new hash.now count) }
        ensures err { OnErr result (self.new ≡ self.old) }
    {
        let place = count as u32;
        if let Ok(mut slots) = vec![in alloc; NOWHERE; slots_for(count)] {
            if take_free(slots.as_mut_slice(), word_of(hash), place) {
                self.slots = slots;
                return Ok(());
            }
        }
        self.put(hash, place)
    }

    // Notes the place for the hash in the slots of a larger table, or else in the map, which that will have.
    fn carry_to(&mut self, larger: &mut [u32], hash: Hash, place: u32) -> Result<(), AllocError>
        ensures slots { self.new.slots ≡ self.old.slots }
        ensures hashes { IsNotedBeside self.old.hashes self.new.hashes hash place }
        ensures still { StandStill larger.old larger.new NOWHERE }
        ensures there { OnOk result (FindsPlace larger.new (first_word hash) place
            ⊎ (note_at self.new.hashes hash ≡ Some place)) }
    {
        if take_untaken(larger, word_of(&hash), place) {
            return Ok(());
        }
        self.clashing.insert(hash, place)?;
        Ok(())
    }

    // Marks the places that slots note, in order, up to the last one that a slot can note.
    fn in_slots(&self, alloc: Global) -> Result<Vec<bool>, AllocError>
        requires { WINDOW ≤ length self.now.slots }
        ensures { IfOk result (λ marks. AreInSlots self.now.slots (length self.now.slots) marks.items) }
    {
        let slots = self.slots.as_slice();
        let mut marks = vec![in alloc; false; slots.len() - WINDOW + 1]?;
        for slot in slots {
            marks[place_in(*slot, slots.len())] = true;
        }
        Ok(marks)
    }

    // Carries a place over to the slots of a larger table, where it is marked, as those are that are in slots: that
    // of a change, or the one after all changes, for the last hash.
    fn carry(
        &mut self,
        larger: &mut [u32],
        marks: &[bool],
        changes: &[Change],
        last: &Hash,
        place: usize,
    ) -> Result<(), AllocError>
        requires sound { Sound changes.now }
        requires few { length changes.now < most_changes }
        requires lacks { has changes.now last.now ≡ false }
        requires marks { AreInSlots self.old.slots (length self.old.slots) marks.now }
        requires within { place ≤ length changes.now }
        ensures slots { self.new.slots ≡ self.old.slots }
        ensures noted { AreNotedWith changes.now last.now self.old
            → AreNotedWith changes.now last.now self.new }
        ensures carried { OnOk result (
            AreCarried changes.now last.now self.old.slots place larger.old self.old.hashes
            → AreCarried changes.now last.now self.old.slots (place + 1) larger.new self.new.hashes) }
    {
        if !is_marked(marks, place) {
            return Ok(());
        }
        self.carry_to(larger, hash_at(changes, last, place), place as u32)
    }

    // Makes the table larger, for as many changes more as there are: its slots from the places that the old ones note,
    // in their order, while the map stays as it is. A refusal leaves the old slots. What may be much is asked for
    // first.
    //
    // In the larger table a further bit of a word says where its window begins. Of the places for whose words it is the
    // same, each finds room no further into its window than before, since only places that came before it have gone
    // over. So only where the last slots were taken, in which no window began, may a window be full, as others begin
    // there now: as many places at most go to the map, 31.
    fn grow(&mut self, alloc: Global, changes: &[Change], last: &Hash) -> Result<(), AllocError>
        requires sound { Sound changes.now }
        requires few { length changes.now < most_changes }
        requires lacks { has changes.now last.now ≡ false }
        requires room { WINDOW ≤ length self.old.slots }
        requires noted { AreNotedWith changes.now last.now self.old }
        ensures noted { AreNotedWith changes.now last.now self.new }
    {
        let count = slots_for(changes.len());
        let mut larger = Vec::with_capacity(alloc, count)?;
        let marks = self.in_slots(alloc)?;
        larger.resize(count, NOWHERE)?;
        for place in 0..changes.len() + 1 {
            let slots = larger.as_mut_slice();
            self.carry(slots, marks.as_slice(), changes, last, place)?;
        }
        self.slots = larger;
        Ok(())
    }

    /// Notes the place after those of all changes for a hash that none of them has. The only refusal is that of a node
    /// of the map, and leaves all as it was.
    ///
    /// Where the places are more than half of the slots then, the table is made larger. Where that is refused it serves
    /// as it is, and each call asks again. This is the longest call, whatever hashes strangers choose: a pass over the
    /// old slots, and one over the hashes of the changes that are noted there.
    pub fn note(&mut self, alloc: Global, changes: &[Change], hash: &Hash) -> Result<(), AllocError>
        requires sound { Sound changes.now }
        requires few { length changes.now < most_changes }
        requires lacks { has changes.now hash.now ≡ false }
        requires noted { AreNoted changes.now self.old }
        ensures noted { OnOk result (AreNoted changes.now self.new) }
        ensures at { OnOk result (IsNotedAt self.new hash.now (length changes.now)) }
        ensures err { OnErr result (self.new ≡ self.old) }
    {
        if self.slots.len() < WINDOW {
            return self.begin(alloc, changes.len(), hash);
        }
        self.put(hash, changes.len() as u32)?;
        if self.slots.len() < 2 * changes.len() + WINDOW {
            let _ = self.grow(alloc, changes, hash);
        }
        Ok(())
    }
}

// The noted place, where the change there has the hash.
fn noted_place(changes: &[Change], noted: Option<u32>, hash: &Hash) -> Option<usize>
    ensures there { IfSome result (λ place. HasAt changes.now place hash.now) }
    ensures within { IfSome result (λ place. place < length changes.now) }
    ensures found { (p : ℕ) → noted ≡ Some p → HasAt changes.now p hash.now → result ≡ Some p }
{
    match noted {
        Some(place) => {
            let place = place as usize;
            if has_at(changes, place, hash) {
                Some(place)
            } else {
                None
            }
        }
        None => None,
    }
}

// Whether the change at the place has the hash.
fn has_at(changes: &[Change], place: usize, hash: &Hash) -> bool
    ensures { IsTrue result ↔ HasAt changes.now place hash.now }
{
    if place < changes.len() {
        changes[place].hash().is(hash)
    } else {
        false
    }
}

/// The place of the change with the hash. A noted place is trusted only where the change there has the hash. The last
/// change is looked at first, since it is asked for most.
pub fn place_of(changes: &[Change], index: &Index, hash: &Hash) -> Option<usize>
    requires sound { Sound changes.now }
    requires few { length changes.now ≤ most_changes }
    requires noted { AreNoted changes.now index.now }
    ensures place { result ≡ place_from 0 changes.now hash.now }
    ensures within { IfSome result (λ place. place < length changes.now) }
{
    let last = changes.len().saturating_sub(1);
    if has_at(changes, last, hash) {
        return Some(last);
    }
    if let Some(place) = index.by_word(changes, hash) {
        return Some(place);
    }
    noted_place(changes, index.by_hash(hash), hash)
}

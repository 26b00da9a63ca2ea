//! Look-ups of elements by identifier, back along the links of an actor's elements.

ghost use Rattle.std.specs.Prelude.{◌≡◌, ◌⊎◌, ℕ, ◌+◌, ◌-◌, ◌<◌, ◌≤◌, true, List, [], ◌∷◌, ◌++◌, length, vec_len, vec_capacity, IfSome, IfNone, IsTrue};
ghost use Rattle.tp_opid.specs.Insert.{Insert};
ghost use Rattle.tp_elements.specs.declared.links.Latest.{Latest as Last};
ghost use Rattle.tp_elements.specs.Actors.{latest_at, IsPlaceOf};
ghost use Rattle.tp_elements.specs.Indexed.{actor_of_element, counter_of_element, link_at, IsIndexed};

use crate::actors::find;
use crate::entries::Entries;
use crate::links::{Latest, Link, Linked};
use tp_opid::OpId;

/// The link of the next element of an actor, whose latest so far is `last`.
fn link_after(links: &[Link], last: u32) -> Link
    requires last { last < length links.now }
    requires jumps { (k : ℕ) → k < length links.now → (link_at links.now k).jump ≤ k }
    ensures before { result.before ≡ last }
    ensures jump { (result.jump ≡ last)
        ⊎ (result.jump ≡ (link_at links.now (link_at links.now last).jump).jump) }
{
    let near = links[last as usize];
    let far = links[near.jump as usize];
    let farther = links[far.jump as usize];
    let even = near.depth.wrapping_sub(far.depth) == far.depth.wrapping_sub(farther.depth);
    Link {
        before: last,
        jump: if even { far.jump } else { last },
        depth: near.depth.wrapping_add(1),
    }
}

/// The next step of a look-up back from an element whose counter is too great: past elements of its actor with greater
/// counters alone; `None` where the actor has no element before it.
fn back(entries: &Entries, links: &[Link], at: usize, counter: u64) -> Option<usize>
    requires at { at < length entries.now.items }
    requires indexed { (latest : List Last) × IsIndexed entries.now.items latest links.now }
    ensures found { IfSome result
        (λ next. (next < at) × (actor_of_element entries.now.items next ≡ actor_of_element entries.now.items at)
        × ((j : ℕ) → j < at → actor_of_element entries.now.items j ≡ actor_of_element entries.now.items at
        → counter_of_element entries.now.items j ≤ counter → j ≤ next)) }
    ensures none { IfNone result
        ((j : ℕ) → j < at → actor_of_element entries.now.items j ≡ actor_of_element entries.now.items at → ⊥) }
{
    let link = links[at];
    let jump = link.jump as usize;
    if jump < at {
        if counter <= entries.counter(jump) {
            return Some(jump);
        }
    }
    let before = link.before as usize;
    if before < at { Some(before) } else { None }
}

/// From an element on, back over those of its actor, to the first whose counter isn't greater than one; `None` where
/// all are.
pub(crate) fn seek(entries: &Entries, links: &[Link], from: usize, counter: u64) -> Option<usize>
    requires from { from < length entries.now.items }
    requires indexed { (latest : List Last) × IsIndexed entries.now.items latest links.now }
    ensures found { IfSome result
        (λ at. (at < length entries.now.items) × (actor_of_element entries.now.items at ≡ actor_of_element entries.now.items from)
        × (counter_of_element entries.now.items at ≤ counter)
        × ((j : ℕ) → j ≤ from → actor_of_element entries.now.items j ≡ actor_of_element entries.now.items from
        → counter_of_element entries.now.items j ≤ counter → j ≤ at)) }
    ensures none { IfNone result
        ((j : ℕ) → j ≤ from → actor_of_element entries.now.items j ≡ actor_of_element entries.now.items from
        → counter < counter_of_element entries.now.items j) }
{
    let mut at = from;
    'steps: loop {
        if entries.counter(at) <= counter {
            return Some(at);
        }
        match back(entries, links, at, counter) {
            Some(next) => at = next,
            None => return None,
        }
    }
}

/// How many guesses are made before a look-up goes back along links.
const GUESSES: usize = 8;

/// Where an element with the counter is if the counters of the elements from `low` to `high` rise evenly.
fn guess(entries: &Entries, low: usize, high: usize, counter: u64) -> usize
    requires low { low ≤ high }
    requires high { high < length entries.now.items }
    ensures low { low ≤ result }
    ensures high { result ≤ high }
{
    let low_counter = entries.counter(low);
    let high_counter = entries.counter(high);
    if counter <= low_counter {
        return low;
    }
    if high_counter <= counter {
        return high;
    }
    let share = (high - low) as u64;
    let step = (counter - low_counter).saturating_mul(share) / (high_counter - low_counter);
    low + step.min(share) as usize
}

/// Where, up to an element, one with the counter is likely to be: by interpolation, as if the counters of all
/// elements rose, which those of elements that were inserted one after another do. It looks at a few elements. The
/// answer is a guess that the caller has to check.
pub(crate) fn likely(entries: &Entries, last: usize, counter: u64) -> usize
    requires { last < length entries.now.items }
    ensures { result ≤ last }
{
    let mut low = 0;
    let mut high = last;
    for _ in 0..GUESSES {
        let at = guess(entries, low, high, counter);
        let found = entries.counter(at);
        if found < counter && at < high {
            low = at + 1;
        } else if counter < found && low < at {
            high = at - 1;
        } else {
            return at;
        }
    }
    low
}

/// Links the next element of an actor after its latest, which the actor's entry names, and says whether its counter is
/// the greater. It takes no memory.
fn link_more(
    entries: &Entries,
    latest: &mut Vec<Latest>,
    links: &mut Vec<Link>,
    id: &OpId,
    entry: usize,
) -> bool
    requires few { 0 < entries.now.room }
    requires room { vec_len links.old < vec_capacity links.old }
    requires indexed { IsIndexed entries.now.items latest.old.items links.old.items }
    requires entry { entry < length latest.old.items }
    requires actor { (latest_at latest.old.items entry).actor ≡ id.now.actor }
    ensures indexed { (e : Insert) → e.id ≡ id.now → IsTrue result
        → IsIndexed (entries.now.items ++ e ∷ []) latest.new.items links.new.items }
    ensures latest_room { vec_capacity latest.old - vec_len latest.old
        ≤ vec_capacity latest.new - vec_len latest.new }
    ensures links_room { vec_capacity links.old - vec_len links.old
        ≤ vec_capacity links.new - vec_len links.new + 1 }
{
    let last = latest[entry].number;
    if id.counter <= entries.counter(last as usize) {
        return false;
    }
    let link = link_after(links, last);
    latest[entry].number = entries.len() as u32;
    if links.push(link).is_err() {
        unreachable!()
    }
    true
}

/// Links an actor's first element, and puts the actor's entry in where it belongs. It takes no memory.
fn link_first(
    entries: &Entries,
    latest: &mut Vec<Latest>,
    links: &mut Vec<Link>,
    id: &OpId,
    entry: usize,
)
    requires few { 0 < entries.now.room }
    requires latest_room { vec_len latest.old < vec_capacity latest.old }
    requires links_room { vec_len links.old < vec_capacity links.old }
    requires indexed { IsIndexed entries.now.items latest.old.items links.old.items }
    requires entry { IsPlaceOf latest.old.items id.now.actor entry }
    ensures indexed { (e : Insert) → e.id ≡ id.now
        → IsIndexed (entries.now.items ++ e ∷ []) latest.new.items links.new.items }
    ensures latest_room { vec_capacity latest.old - vec_len latest.old
        ≤ vec_capacity latest.new - vec_len latest.new + 1 }
    ensures links_room { vec_capacity links.old - vec_len links.old
        ≤ vec_capacity links.new - vec_len links.new + 1 }
{
    let number = entries.len() as u32;
    let first = Latest {
        actor: id.actor,
        number,
    };
    let link = Link {
        before: number,
        jump: number,
        depth: 0,
    };
    if latest.insert(entry, first).is_err() || links.push(link).is_err() {
        unreachable!()
    }
}

/// Links the next element after its actor's latest. It takes no memory.
pub(crate) fn link_next(
    entries: &Entries,
    latest: &mut Vec<Latest>,
    links: &mut Vec<Link>,
    id: &OpId,
) -> Linked
    requires few { 0 < entries.now.room }
    requires latest_room { vec_len latest.old < vec_capacity latest.old }
    requires links_room { vec_len links.old < vec_capacity links.old }
    requires indexed { IsIndexed entries.now.items latest.old.items links.old.items }
    ensures indexed { (e : Insert) → e.id ≡ id.now → IsTrue result.rising
        → IsIndexed (entries.now.items ++ e ∷ []) latest.new.items links.new.items }
    ensures sibling { IfSome result.sibling
        (λ k. (k < length entries.now.items) × (actor_of_element entries.now.items k ≡ id.now.actor)) }
    ensures latest_room { vec_capacity latest.old - vec_len latest.old
        ≤ vec_capacity latest.new - vec_len latest.new + 1 }
    ensures links_room { vec_capacity links.old - vec_len links.old
        ≤ vec_capacity links.new - vec_len links.new + 1 }
{
    match find(latest, &id.actor) {
        Ok(entry) => {
            let sibling = Some(latest[entry].number);
            let rising = link_more(entries, latest, links, id, entry);
            Linked { rising, sibling }
        }
        Err(entry) => {
            link_first(entries, latest, links, id, entry);
            Linked {
                rising: true,
                sibling: None,
            }
        }
    }
}

//! Calls on graphs.

use crate::world::World;
use std::alloc::Global;
use tp_change::Change;
use tp_graph::Graph;
use tp_rga::Sequence;
use tp_test_runner::{
    Fault, Shelf, Words, actor, answer_ok, copy, count, hashes, names, names_of, refusal,
};

// `graph NAME`: a graph with no changes.
fn make(graphs: &mut Shelf<Graph>, words: &mut Words) -> Result<String, Fault> {
    let alloc = graphs.alloc();
    graphs.put(words.next()?, Graph::new(alloc))?;
    answer_ok(alloc)
}

// `add GRAPH CHANGE`: the place in applied order.
fn add(alloc: Global, graph: &mut Graph, change: Change) -> Result<String, Fault> {
    let hash = change.hash();
    match graph.add(change) {
        Ok(place) => Ok(format!(in alloc; "{place}")?),
        Err(rejected) if rejected.change.hash().is(&hash) => refusal(alloc, rejected.error),
        Err(_) => Ok(String::from_str(alloc, "another change is given back")?),
    }
}

// `hold GRAPH CHANGE`: the change waits, where it doesn't yet and there is a slot.
fn hold(alloc: Global, graph: &mut Graph, change: Change) -> Result<String, Fault> {
    if graph.waits(&change.hash()) {
        return Ok(String::from_str(alloc, "waits already")?);
    }
    if graph.pending().len() >= 1024 {
        return Ok(String::from_str(alloc, "no place")?);
    }
    match graph.hold(change) {
        Ok(()) => answer_ok(alloc),
        Err(rejected) => refusal(alloc, rejected.error),
    }
}

// `enter_waiting GRAPH NUMBER`: makes the waiting change ready, takes it out and enters it.
fn enter_waiting(alloc: Global, graph: &mut Graph, i: usize) -> Result<String, Fault> {
    if i >= graph.pending().len() {
        return Ok(String::from_str(alloc, "none waits there")?);
    }
    match graph.ready_waiting(i) {
        Ok(()) => {
            let change = graph.release(i);
            graph.enter(change);
            answer_ok(alloc)
        }
        Err(error) => refusal(alloc, error),
    }
}

// `release GRAPH NUMBER`: takes the waiting change out.
fn release(changes: &Shelf<Change>, graph: &mut Graph, i: usize) -> Result<String, Fault> {
    if i < graph.pending().len() {
        names_of(changes, &[graph.release(i)])
    } else {
        Ok(String::from_str(changes.alloc(), "none waits there")?)
    }
}

// Makes a call that changes a graph; it names a change, or the number of one that waits.
fn change(
    graph: &mut Graph,
    changes: &Shelf<Change>,
    word: &str,
    of: &str,
) -> Result<String, Fault> {
    let alloc = changes.alloc();
    match word {
        "add" => add(alloc, graph, copy(changes.get(of)?)?),
        "hold" => hold(alloc, graph, copy(changes.get(of)?)?),
        "enter_waiting" => enter_waiting(alloc, graph, count(of)?),
        _ => release(changes, graph, count(of)?),
    }
}

fn change_named<S: Sequence>(
    world: &mut World<S>,
    word: &str,
    words: &mut Words,
) -> Result<String, Fault> {
    let graph = world.graphs.get_mut(words.next()?)?;
    change(graph, &world.changes, word, words.next()?)
}

/// Makes a call that makes or changes a graph; `None` where the word is none of these.
pub fn call<S: Sequence>(
    world: &mut World<S>,
    word: &str,
    words: &mut Words,
) -> Option<Result<String, Fault>> {
    match word {
        "graph" => Some(make(&mut world.graphs, words)),
        "add" | "hold" | "enter_waiting" | "release" => Some(change_named(world, word, words)),
        _ => None,
    }
}

// `check GRAPH CHANGE`.
fn check(graph: &Graph, changes: &Shelf<Change>, words: &mut Words) -> Result<String, Fault> {
    match graph.check(changes.get(words.next()?)?) {
        Ok(()) => answer_ok(changes.alloc()),
        Err(error) => refusal(changes.alloc(), error),
    }
}

// `past GRAPH HASHES`: the places of the past.
fn past(graph: &Graph, changes: &Shelf<Change>, words: &mut Words) -> Result<String, Fault> {
    let at = hashes(changes, words.next()?)?;
    match graph.past(&at) {
        Ok(past) => {
            let places = past.places();
            Ok(format!(in changes.alloc(); "{places:?}")?)
        }
        Err(error) => refusal(changes.alloc(), error),
    }
}

// `since GRAPH HASHES`.
fn since(graph: &Graph, changes: &Shelf<Change>, words: &mut Words) -> Result<String, Fault> {
    let at = hashes(changes, words.next()?)?;
    match graph.since(&at) {
        Ok(since) => names_of(changes, &since),
        Err(error) => refusal(changes.alloc(), error),
    }
}

// `missing GRAPH`.
fn missing(graph: &Graph, changes: &Shelf<Change>) -> Result<String, Fault> {
    match graph.missing() {
        Ok(hashes) => names(changes, &hashes),
        Err(error) => refusal(changes.alloc(), error),
    }
}

// `place GRAPH CHANGE`: its place in applied order, and whether `contains` and `get` agree.
fn place(graph: &Graph, changes: &Shelf<Change>, words: &mut Words) -> Result<String, Fault> {
    let alloc = changes.alloc();
    let hash = changes.get(words.next()?)?.hash();
    match (graph.place(&hash), graph.get(&hash)) {
        (Some(at), Some(change)) if graph.contains(&hash) && change.hash().is(&hash) => {
            Ok(format!(in alloc; "{at}")?)
        }
        (None, None) if !graph.contains(&hash) => Ok(String::from_str(alloc, "none")?),
        _ => Ok(String::from_str(alloc, "no agreement")?),
    }
}

// `next_counter GRAPH`.
fn next_counter(alloc: Global, graph: &Graph) -> Result<String, Fault> {
    let next = graph.next_counter();
    Ok(format!(in alloc; "{next}")?)
}

// `count_by GRAPH ACTOR`.
fn count_by(alloc: Global, graph: &Graph, words: &mut Words) -> Result<String, Fault> {
    let count = graph.count_by(&actor(words.next()?)?);
    Ok(format!(in alloc; "{count}")?)
}

/// Makes a call `WORD GRAPH ..` that reads the graph.
pub fn look(
    graph: &Graph,
    changes: &Shelf<Change>,
    word: &str,
    words: &mut Words,
) -> Result<String, Fault> {
    match word {
        "check" => check(graph, changes, words),
        "heads" => names(changes, graph.heads()),
        "changes" => names_of(changes, graph.changes()),
        "pending" => names_of(changes, graph.pending()),
        "missing" => missing(graph, changes),
        "past" => past(graph, changes, words),
        "since" => since(graph, changes, words),
        "place" => place(graph, changes, words),
        "next_counter" => next_counter(changes.alloc(), graph),
        "count_by" => count_by(changes.alloc(), graph, words),
        _ => Err(Fault::Row("no such call")),
    }
}

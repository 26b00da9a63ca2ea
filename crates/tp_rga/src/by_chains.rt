//! The order straight from its definition, by chains: slow, to compare with.

ghost use Rattle.std.specs.Prelude.{◌≡◌, ◌↔◌, ℕ, ◌<◌, ◌≤◌, length, insert, IsTrue, IfOk};
ghost use Rattle.std.specs.List.{AllWithin, HoldsAt};
ghost use Rattle.tp_list.specs.Members.{AllIn};
ghost use Rattle.tp_opid.specs.Insert.{Insert};
ghost use Rattle.tp_opid.specs.Tree.{Inserts, IsThere, IsTree};
ghost use Rattle.tp_rga.specs.Same.{same_insert, agrees, is_only};
ghost use Rattle.tp_rga.specs.Order.{IsChain, Precedes, Before, IsInOrder};

use crate::insertion::Insertion;
use crate::placed::{contains, index_of, is_reference_below};
use std::alloc::{AllocError, Global};
use tp_opid::{OpId, Place};

/// Whether a chain precedes another: it is a proper beginning of it, or has the greater identifier where they first
/// differ.
fn precedes(c: &[OpId], d: &[OpId]) -> bool
    ensures { IsTrue result ↔ Precedes c.now d.now }
{
    for i in 0..c.len() {
        if i >= d.len() {
            return false;
        }
        if !c[i].is(&d[i]) {
            return d[i].is_below(&c[i]);
        }
    }
    c.len() < d.len()
}

/// The identifiers from the element that is placed after the start, along references, to an element.
fn chain_of(alloc: Global, inserts: &[Insertion], id: &OpId) -> Result<Vec<OpId>, AllocError>
    requires tree { IsTree inserts.now }
    requires there { IsThere inserts.now id.now }
    ensures { IfOk result (λ c. IsChain inserts.now id.now c.items) }
{
    let mut chain = Vec::new(alloc);
    let mut place = Place::After(*id);
    while let Place::After(x) = place {
        chain.insert(0, x)?;
        place = reference_of(inserts, &x);
    }
    Ok(chain)
}

/// The reference of an element.
fn reference_of(inserts: &[Insertion], id: &OpId) -> Place
    requires { IsThere inserts.now id.now }
    ensures { Inserts inserts.now id.now result }
{
    match index_of(inserts, id) {
        Some(i) => {
            let e = &inserts[i];
            e.after
        }
        None => unreachable!(),
    }
}

/// Whether an element is before another.
fn is_before(alloc: Global, inserts: &[Insertion], x: &OpId, y: &OpId) -> Result<bool, AllocError>
    requires tree { IsTree inserts.now }
    requires first { IsThere inserts.now x.now }
    requires second { IsThere inserts.now y.now }
    ensures { IfOk result (λ b. IsTrue b ↔ Before inserts.now x.now y.now) }
{
    let c = chain_of(alloc, inserts, x)?;
    let d = chain_of(alloc, inserts, y)?;
    Ok(precedes(&c, &d))
}

/// The index in a list in order where a new element is placed: past those that are before it.
fn index_in(
    alloc: Global,
    inserts: &[Insertion],
    list: &[Insertion],
    x: &OpId,
) -> Result<usize, AllocError>
    requires tree { IsTree inserts.now }
    requires there { IsThere inserts.now x.now }
    requires part { AllIn list.now inserts.now }
    ensures within { IfOk result (λ i. i ≤ length list.now) }
    ensures passed { IfOk result
        (λ i. AllWithin (λ e. Before inserts.now e.id x.now) list.now 0 i) }
    ensures stops { IfOk result
        (λ i. i < length list.now → HoldsAt (λ e. ¬ Before inserts.now e.id x.now) list.now i) }
{
    for i in 0..list.len() {
        let e = &list[i];
        if !is_before(alloc, inserts, &e.id, x)? {
            return Ok(i);
        }
    }
    Ok(list.len())
}

/// The elements of a set of inserts in the order of the text, straight from the definition: each once, where it is by
/// the order of chains. The inserts may be in any order.
///
/// The caller sees to it that they are a tree, by `is_tree`. The only refusal is for want of memory. The cost grows
/// with the square of the number of inserts, times that of finding a chain; it is for comparing, not for use.
pub fn in_order(alloc: Global, inserts: &[Insertion]) -> Result<Vec<Insertion>, AllocError>
    requires { IsTree inserts.now }
    ensures { IfOk result (λ v. IsInOrder inserts.now v.items) }
{
    let mut list: Vec<Insertion> = Vec::new(alloc);
    for i in 0..inserts.len() {
        let e = &inserts[i];
        if !contains(&list, &e.id) {
            let at = index_in(alloc, inserts, &list, &e.id)?;
            list.insert(at, *e)?;
        }
    }
    Ok(list)
}

/// Whether the inserts are a tree: no identifier is that of two different inserts, and each insert is placed after the
/// start or after an element that is there and has a smaller identifier.
pub fn is_tree(inserts: &[Insertion]) -> bool
    ensures { IsTrue result ↔ IsTree inserts.now }
{
    for i in 0..inserts.len() {
        let e = &inserts[i];
        if !is_reference_below(inserts, &e.id, &e.after) {
            return false;
        }
        if !is_only(inserts, e) {
            return false;
        }
    }
    true
}

/// Whether no other insert has the identifier of this one.
fn is_only(inserts: &[Insertion], e: &Insertion) -> bool
    ensures { result ≡ is_only inserts.now e.now }
{
    inserts.iter().all(|a| agrees(a, e))
}

/// Whether an insert is another one, or has another identifier.
fn agrees(a: &Insertion, e: &Insertion) -> bool
    ensures { result ≡ agrees e.now a.now }
{
    !a.id.is(&e.id) || is_same(a, e)
}

/// Whether two inserts are one.
fn is_same(a: &Insertion, b: &Insertion) -> bool
    ensures { result ≡ same_insert a.now b.now }
{
    a.id.is(&b.id) && a.after.is(&b.after) && a.ch == b.ch
}

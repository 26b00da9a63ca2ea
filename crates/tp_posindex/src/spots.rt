//! The spot where an insert goes.

ghost use Rattle.tp_opid.specs.Tree.{CanInsert};
ghost use Rattle.std.specs.Prelude.{◌≡◌, ℕ, ◌<◌, ◌≤◌, ◌≢◌, List, length, take, insert, map, slice_index_or};
ghost use Rattle.std.specs.List.{All, AllWithin, HoldsAt};
ghost use Rattle.tp_opid.specs.Insert.{Insert};
ghost use Rattle.tp_opid.specs.Order.{Below};
ghost use Rattle.tp_rga.specs.Order.{EndsAt, IsInserted};
ghost use Rattle.tp_elements.specs.Came.{element_at};
ghost use Rattle.tp_elements.specs.Entered.{IsNumberBelow, place_of_reference};
ghost use Rattle.tp_posindex.specs.Layout.{concat_blocks, index_at, IsGap};

use crate::blocks::Blocks;
use tp_elements::{Entries, Reference};
use tp_opid::OpId;
use tp_rga::Spot;

/// From an offset of a block on, past each element with a greater identifier, up to the first that has none or to the
/// block's end.
fn past_greater_in(entries: &Entries, numbers: &[u32], from: usize, id: &OpId) -> usize
    requires from { from ≤ length numbers.now }
    requires numbers { All (λ k. k < length entries.now.items) numbers.now }
    ensures from { from ≤ result }
    ensures within { result ≤ length numbers.now }
    ensures passed { AllWithin
        (λ k. Below id.now (element_at entries.now.items k).id) numbers.now from result }
    ensures stops { result < length numbers.now
        → HoldsAt (λ k. ¬ Below id.now (element_at entries.now.items k).id) numbers.now result }
{
    for offset in from..numbers.len() {
        let other = entries.id(numbers[offset] as usize);
        if !id.is_below(&other) {
            return offset;
        }
    }
    numbers.len()
}

/// From a spot on, past each element with a greater identifier, up to the first that has none or to the end.
fn past_greater(entries: &Entries, blocks: &Blocks, from: Spot, id: &OpId) -> Spot
    requires from { IsGap blocks.now.blocks from.block from.offset }
    requires matched { length blocks.now.flags ≡ length entries.now.items }
    ensures gap { IsGap blocks.now.blocks result.block result.offset }
    ensures from { index_at blocks.now.blocks from.block from.offset
        ≤ index_at blocks.now.blocks result.block result.offset }
    ensures within { index_at blocks.now.blocks result.block result.offset
        ≤ length (concat_blocks blocks.now.blocks) }
    ensures passed { AllWithin
        (λ k. Below id.now (element_at entries.now.items k).id) (concat_blocks blocks.now.blocks)
        (index_at blocks.now.blocks from.block from.offset) (index_at blocks.now.blocks result.block result.offset) }
    ensures stops { index_at blocks.now.blocks result.block result.offset
        < length (concat_blocks blocks.now.blocks)
        → HoldsAt (λ k. ¬ Below id.now (element_at entries.now.items k).id) (concat_blocks blocks.now.blocks)
        (index_at blocks.now.blocks result.block result.offset) }
{
    let mut offset = from.offset;
    for block in from.block..blocks.count() {
        let numbers = blocks.block(block);
        let stop = past_greater_in(entries, numbers, offset, id);
        if stop < numbers.len() {
            return Spot {
                block,
                offset: stop,
            };
        }
        offset = 0;
    }
    blocks.end()
}

/// Right after a reference: at the start, or after the element with the number.
fn right_after(blocks: &Blocks, reference: Reference) -> Spot
    requires { IsNumberBelow (length blocks.now.flags) reference }
    ensures gap { IsGap blocks.now.blocks result.block result.offset }
    ensures ends { (E : List Insert) → EndsAt (take (index_at blocks.now.blocks result.block result.offset)
        (map (element_at E) (concat_blocks blocks.now.blocks))) (place_of_reference E reference) }
{
    match reference {
        Reference::Start => Spot {
            block: 0,
            offset: 0,
        },
        Reference::After(number) => {
            let spot = blocks.spot_of(number as usize);
            Spot {
                block: spot.block,
                offset: spot.offset + 1,
            }
        }
    }
}

/// The spot where an insert goes: right after its reference, past each element with a greater identifier.
pub(crate) fn spot_for(entries: &Entries, blocks: &Blocks, id: &OpId, reference: Reference) -> Spot
    requires matched { length blocks.now.flags ≡ length entries.now.items }
    requires reference { IsNumberBelow (length entries.now.items) reference }
    requires can { CanInsert (map (element_at entries.now.items)
        (concat_blocks blocks.now.blocks)) id.now (place_of_reference entries.now.items reference) }
    ensures gap { IsGap blocks.now.blocks result.block result.offset }
    ensures order { (ch : ℕ) → let x : Insert = record { id = id.now; after = place_of_reference entries.now.items reference; ch = ch }
        in
        let placed = map (element_at entries.now.items) (concat_blocks blocks.now.blocks) in
        IsInserted placed (insert placed (index_at blocks.now.blocks result.block result.offset) x) x }
{
    past_greater(entries, blocks, right_after(blocks, reference), id)
}

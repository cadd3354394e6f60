//! Many keys: windows grow one by one, and places lie in several segments.

use crate::laying::{held, lay_from, thin};
use agg_types::Key;
use anyhow::Result;
use place_index::PlaceIndex;

/// How many keys there are at first.
const FIRST: u32 = 10_000;

/// How many numbers keys have in all, once others lie in the places of a third.
const ALL: u32 = 13_334;

/// Lays many keys down.
fn fill(rt: &HostRuntime, index: &mut PlaceIndex<Key, u32>) -> Result<()> {
    lay_from(rt.alloc(), index, 0, FIRST)?;
    let there = held(rt.alloc(), index, 0, FIRST)?;
    let others = held(rt.alloc(), index, FIRST, 2 * FIRST)?;
    println!(rt; "{there} of {FIRST} keys held, and {others} of {FIRST} others")?;
    Ok(())
}

/// Takes a third of them out.
fn empty(rt: &HostRuntime, index: &mut PlaceIndex<Key, u32>) -> Result<()> {
    thin(index, 3);
    let there = held(rt.alloc(), index, 0, FIRST)?;
    println!(rt; "{there} once every third place is empty")?;
    Ok(())
}

/// Lays others into their places.
fn refill(rt: &HostRuntime, index: &mut PlaceIndex<Key, u32>) -> Result<()> {
    lay_from(rt.alloc(), index, FIRST, ALL)?;
    let there = held(rt.alloc(), index, 0, ALL)?;
    println!(rt; "{there} with others in {} places", index.places())?;
    Ok(())
}

/// Lays many keys down, takes a third of them out, and lays others into their places.
pub fn run(rt: &HostRuntime) -> Result<()> {
    let mut index = PlaceIndex::<Key, u32>::new(rt.alloc());
    fill(rt, &mut index)?;
    empty(rt, &mut index)?;
    refill(rt, &mut index)
}

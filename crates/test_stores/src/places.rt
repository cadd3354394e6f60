//! A few keys, and the places that they leave and take.

use crate::laying::{lay, lay_key, place};
use agg_types::Key;
use anyhow::Result;
use place_index::PlaceIndex;

/// Prints where the key of a number lies.
fn print_place(rt: &HostRuntime, index: &PlaceIndex<Key, u32>, number: u32) -> Result<()> {
    match place(rt.alloc(), index, number)? {
        Some(at) => println!(rt; "key {number} lies in place {at}")?,
        None => println!(rt; "key {number} has no place")?,
    }
    Ok(())
}

/// Empties a place, and prints what lay there.
fn empty(rt: &HostRuntime, index: &mut PlaceIndex<Key, u32>, at: usize) -> Result<()> {
    match index.remove(at) {
        Some((_, number)) => println!(rt; "key {number} taken out of place {at}")?,
        None => println!(rt; "nothing in place {at}")?,
    }
    Ok(())
}

/// Prints what lies in each place, by a walk over those that aren't empty.
fn print_all(rt: &HostRuntime, index: &PlaceIndex<Key, u32>) -> Result<()> {
    let mut from = 0;
    for _ in 0..index.places() {
        let Some(at) = index.first_from(from) else {
            break;
        };
        if let Some(number) = index.value(at) {
            println!(rt; "place {at}: key {number}")?;
        }
        from = at.saturating_add(1);
    }
    let places = index.places();
    println!(rt; "{places} places")?;
    Ok(())
}

/// Lays the keys from a number up to another, and prints where.
fn lay_some(rt: &HostRuntime, index: &mut PlaceIndex<Key, u32>, from: u32, to: u32) -> Result<()> {
    for number in from..to {
        lay(rt.alloc(), index, number)?;
        print_place(rt, index, number)?;
    }
    Ok(())
}

fn empty_some(rt: &HostRuntime, index: &mut PlaceIndex<Key, u32>, places: &[usize]) -> Result<()> {
    for at in places {
        empty(rt, index, *at)?;
    }
    Ok(())
}

fn print_some(rt: &HostRuntime, index: &PlaceIndex<Key, u32>, from: u32, to: u32) -> Result<()> {
    for number in from..to {
        print_place(rt, index, number)?;
    }
    Ok(())
}

/// Lays the key of no bytes, which stands in empty places too, and takes it out again.
fn lay_empty_key(rt: &HostRuntime, index: &mut PlaceIndex<Key, u32>) -> Result<()> {
    empty(rt, index, 2)?;
    let before = index.find(&Key::empty()).is_some();
    let at = lay_key(index, Key::empty(), 100);
    println!(rt; "the key of no bytes: there before: {before}, then in place {at:?}")?;
    print_all(rt, index)?;
    empty_some(rt, index, &[2, 2])
}

fn run_all(rt: &HostRuntime, index: &mut PlaceIndex<Key, u32>) -> Result<()> {
    print_place(rt, index, 0)?;
    lay_some(rt, index, 0, 5)?;
    empty_some(rt, index, &[1, 3, 1, 9])?;
    print_some(rt, index, 1, 5)?;
    lay_some(rt, index, 5, 8)?;
    print_all(rt, index)?;
    lay_empty_key(rt, index)
}

/// Lays keys into places, empties some, and lays others there.
pub fn run(rt: &HostRuntime) -> Result<()> {
    let mut index = PlaceIndex::<Key, u32>::new(rt.alloc());
    run_all(rt, &mut index)
}

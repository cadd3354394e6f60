//! Keys whose hashes choose one window: what it has no room for goes to the ordered map.

use crate::laying::{has_value, key, lay, thin};
use agg_types::{Key, NoMemory};
use anyhow::Result;
use place_index::{IndexKey, PlaceIndex};
use std::alloc::Global;

/// How many keys there are.
const NUMBER: usize = 30;

/// Numbers whose keys' hashes leave the same remainders by 2, 4, 8 and so on up to 64: for 30 keys
/// there are at most 9 windows, which 16 remainders choose.
fn colliding(alloc: Global) -> Result<Vec<u32>, NoMemory> {
    let mut numbers = Vec::new(alloc);
    for number in 0..100_000u32 {
        if numbers.len() >= NUMBER {
            break;
        }
        if key(alloc, number)?.hash_of() % 64 == 7 {
            numbers.push(number)?;
        }
    }
    Ok(numbers)
}

/// How many of the numbers' keys are there, each in a place that has it as its value.
fn held(alloc: Global, index: &PlaceIndex<Key, u32>, numbers: &[u32]) -> Result<u32> {
    let mut count = 0u32;
    for number in numbers {
        if has_value(alloc, index, *number, *number)? {
            count = count.saturating_add(1);
        }
    }
    Ok(count)
}

/// Lays the keys of the numbers down.
fn lay_all(alloc: Global, index: &mut PlaceIndex<Key, u32>, numbers: &[u32]) -> Result<()> {
    for number in numbers {
        lay(alloc, index, *number)?;
    }
    Ok(())
}

/// Lays the keys down.
fn fill(rt: &HostRuntime, index: &mut PlaceIndex<Key, u32>, numbers: &[u32]) -> Result<()> {
    lay_all(rt.alloc(), index, numbers)?;
    let count = held(rt.alloc(), index, numbers)?;
    println!(rt; "{count} of {} crowded keys held", numbers.len())?;
    Ok(())
}

/// Takes every other one out.
fn empty(rt: &HostRuntime, index: &mut PlaceIndex<Key, u32>, numbers: &[u32]) -> Result<()> {
    thin(index, 2);
    let count = held(rt.alloc(), index, numbers)?;
    println!(rt; "{count} once every other place is empty")?;
    Ok(())
}

/// Lays them down again.
fn refill(rt: &HostRuntime, index: &mut PlaceIndex<Key, u32>, numbers: &[u32]) -> Result<()> {
    lay_all(rt.alloc(), index, numbers)?;
    let count = held(rt.alloc(), index, numbers)?;
    println!(rt; "{count} again, in {} places", index.places())?;
    Ok(())
}

/// Lays the keys down, takes every other one out, and lays them down again.
pub fn run(rt: &HostRuntime) -> Result<()> {
    let numbers = colliding(rt.alloc())?;
    let mut index = PlaceIndex::<Key, u32>::new(rt.alloc());
    fill(rt, &mut index, &numbers)?;
    empty(rt, &mut index, &numbers)?;
    refill(rt, &mut index, &numbers)
}

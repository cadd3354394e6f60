//! What moved in a filter's set, all changes taken together.

ghost use Rattle.std.specs.Prelude.{◌≡◌, ◌&&◌, List, cond, map, not, unwrap_or};
ghost use Rattle.std.specs.Prelude.{IfOk, OnOk, ℕ};
ghost use Rattle.std.specs.BTreeMap.{get};
ghost use Rattle.std.specs.BTreeSet.{contains};
ghost use Rattle.std.specs.Cmp.Lexicographic.{slice_cmp};
ghost use Rattle.std.specs.Ordering.{nat_cmp};
ghost use Rattle.standing_filters.specs.Turns.{same_key};
ghost use Rattle.set_moves.specs.Moving.{AreMoved, AreOrdered, earlier_of, said_by};

use agg_types::{Key, NoMemory};
use set_changes::Change;
use std::alloc::Global;
use std::collections::{BTreeMap, BTreeSet};

/// The keys that entered a filter's set and those that left it, in order.
#[derive(Drop)]
pub struct Moved {
    entered: BTreeSet<Key>,
    left: BTreeSet<Key>,
}

impl Moved {
    /// Those that entered.
    pub fn entered(&self) -> &BTreeSet<Key>
        ensures { result.now.keys ≡ self.now.entered.keys }
    {
        &self.entered
    }

    /// Those that left.
    pub fn left(&self) -> &BTreeSet<Key>
        ensures { result.now.keys ≡ self.now.left.keys }
    {
        &self.left
    }

    /// How many there are.
    pub fn len(&self) -> usize {
        self.entered.len().saturating_add(self.left.len())
    }
}

/// What moved by changes, in their order. A key that came in and left again moved neither way, nor
/// did one that left and came in again.
pub fn what_moved(alloc: Global, changes: &[&Change]) -> Result<Moved, NoMemory>
    ensures { IfOk result (λ m. AreMoved (map (λ change. change.now) changes.now)
        m.entered.keys m.left.keys) }
{
    // What the first change of each key says.
    let mut firsts = BTreeMap::new(alloc);
    let mut entered = BTreeSet::new(alloc);
    let mut left = BTreeSet::new(alloc);
    for change in changes {
        let change: &Change = *change;
        let first = first_said(alloc, &mut firsts, change)?;
        mark(
            alloc,
            &mut entered,
            &change.key,
            are_in(first, change.is_in),
        )?;
        mark(alloc, &mut left, &change.key, are_out(first, change.is_in))?;
    }
    Ok(Moved { entered, left })
}

// What the first change of a change's key says: this one, where none was before.
fn first_said(
    alloc: Global,
    firsts: &mut BTreeMap<Key, bool>,
    change: &Change,
) -> Result<bool, NoMemory>
    ensures said { IfOk result (λ first. first
        ≡ unwrap_or (get (slice_cmp nat_cmp) firsts.old change.now.key) change.now.is_in) }
    ensures kept { OnOk result ((key : List ℕ) → get (slice_cmp nat_cmp) firsts.new key
        ≡ earlier_of (get (slice_cmp nat_cmp) firsts.old key) (said_by change.now key)) }
{
    match firsts.get(&change.key).copied() {
        Some(first) => Ok(first),
        None => {
            firsts.insert(change.key.duplicate(alloc)?, change.is_in)?;
            Ok(change.is_in)
        }
    }
}

// Whether the first change of a key and its last one are that it came in.
fn are_in(first: bool, last: bool) -> bool
    ensures { result ≡ (first && last) }
{
    first && last
}

// Whether they are that it left.
fn are_out(first: bool, last: bool) -> bool
    ensures { result ≡ (not first && not last) }
{
    !first && !last
}

// Has a key stand in a set, or not.
fn mark(alloc: Global, keys: &mut BTreeSet<Key>, key: &Key, is_there: bool) -> Result<(), NoMemory>
    ensures marked { OnOk result ((other : List ℕ) → contains (slice_cmp nat_cmp) keys.new other
        ≡ cond (same_key key.now other) is_there (contains (slice_cmp nat_cmp) keys.old other)) }
    ensures ordered { OnOk result (AreOrdered keys.new.keys) }
{
    if is_there {
        keys.insert(key.duplicate(alloc)?)?;
    } else {
        keys.remove(key);
    }
    Ok(())
}

ghost use Rattle.std.specs.Prelude.{◌≡◌, ◌≤◌, [], length, IfOk};
ghost use Rattle.std.specs.Iterator.{at_most};
ghost use Rattle.std.specs.Cmp.Lexicographic.{slice_cmp};
ghost use Rattle.std.specs.Ordering.{nat_cmp};
ghost use Rattle.agg_types.specs.declared.limits.TheConstants.{LONGEST_RANK};
ghost use Rattle.expiry_wheel.specs.Entries.{IsInOrder};
ghost use Rattle.ranked.specs.Walk.{AreBounds, GivesFirst, IsCounted, found};

use crate::Wanted;
use crate::walk::take_certain;
use agg_types::{Key, NoMemory};
use crossing::Values;
use expiry_wheel::{Entries, OrderedDue};
use std::alloc::Global;
use std::marker::Model;

/// Lends the keys of a ranked list, each with its value, the larger value first and of equal ones
/// the smaller key. Takes no memory.
///
/// Contracts see what it has left, how many entries of the index it took, and which lie ahead. When
/// it has given an item it never took more than there are keys with a bound of at least the item's
/// value.
pub struct Ranked<'a, V: Values> {
    index: &'a OrderedDue<Key>,
    ahead: Entries<'a, Key, OrderedDue<Key>>,
    // The best keys taken so far and not given yet, the best first.
    candidates: Vec<(&'a Key, u128)>,
    values: &'a V,
    wanted: Wanted,
    // How many keys may still be given.
    left: usize,
    walked: usize,
}

// By hand, so that what drops it elsewhere proves nothing of its parts.
impl<V: Values> Drop for Ranked<'_, V> {
    fn drop(self) {
        let Ranked {
            index: _,
            ahead: _,
            candidates: _,
            values: _,
            wanted: _,
            left: _,
            walked: _,
        } = self;
    }
}

impl<'a, V: Values> Model for Ranked<'a, V> {
    ghost use Rattle.std.specs.Prelude.{List, ℕ, map, vec_len, vec_capacity, ◌≤◌, ◌<◌};
    ghost use Rattle.ranked.specs.Walk.{AreBounds, AreRanked, IsWalk, RankedList, found};
    ghost use Rattle.ranked.specs.Walk.{view_of_candidate};

    ghost Value = { RankedList };

    ghost view = { λ r. record {
      left = found (λ key. V.living r.values.now r.wanted.table key r.wanted.now)
          (λ key. V.summed r.values.now r.wanted.table key r.wanted.col r.wanted.now) r.left
          (map view_of_candidate r.candidates.items) r.ahead;
      walked = r.walked;
      index = r.index.now;
      ahead = r.ahead;
    } };

    ghost invariant = { λ r. AreBounds
        (λ key. V.living r.values.now r.wanted.table key r.wanted.now)
        (λ key. V.summed r.values.now r.wanted.table key r.wanted.col r.wanted.now) r.ahead
        × (vec_len r.candidates ≤ r.left) × (r.left < vec_capacity r.candidates)
        × AreRanked (map view_of_candidate r.candidates.items)
        × IsWalk r.index.now r.walked (map view_of_candidate r.candidates.items) r.ahead };
}

impl<'a, V: Values> Ranked<'a, V> {
    /// A ranked list at a moment, by an index of bounds: an entry is how many leading zeros a key's
    /// bound has. Takes all memory that the list needs.
    pub(crate) fn new(
        alloc: Global,
        index: &'a OrderedDue<Key>,
        wanted: Wanted,
        values: &'a V,
    ) -> Result<Ranked<'a, V>, NoMemory>
        requires short { wanted.n ≤ LONGEST_RANK }
        requires bounds { AreBounds (λ key. V.living values.now wanted.table key wanted.now)
            (λ key. V.summed values.now wanted.table key wanted.col wanted.now) index.now }
        ensures list { IfOk result (λ list. list.left
            ≡ found (λ key. V.living values.now wanted.table key wanted.now)
            (λ key. V.summed values.now wanted.table key wanted.col wanted.now) wanted.n []
            index.now) }
        ensures index { IfOk result (λ list. list.index ≡ index.now) }
        ensures start { IfOk result (λ list. list.walked ≡ 0) }
        ensures ordered { IsInOrder (slice_cmp nat_cmp) index.now }
    {
        let left = wanted.n;
        Ok(Ranked {
            index,
            ahead: Entries::new(index),
            candidates: Vec::with_capacity(alloc, left + 1)?,
            values,
            wanted,
            left,
            walked: 0,
        })
    }

    /// How many entries of the index were taken so far: each that doesn't lie ahead. The count
    /// stays at its greatest number once it is there.
    pub fn walked(&self) -> usize
        ensures value { result ≡ self.entry.now.walked }
        ensures counted { IsCounted self.entry.now }
    {
        self.walked
    }
}

impl<'a, V: Values> Iterator for Ranked<'a, V> {
    type Item = (&'a Key, u128);

    ghost next_gives = { GivesFirst };

    ghost remaining = { λ list. at_most (length list.left) };

    fn next(&mut self) -> Option<(&'a Key, u128)> {
        if self.left == 0 {
            return None;
        }
        let walked = take_certain(
            &mut self.ahead,
            &mut self.candidates,
            self.left,
            self.values,
            self.wanted,
        );
        self.walked = self.walked.saturating_add(walked);
        if self.candidates.as_slice().is_empty() {
            return None;
        }
        self.left -= 1;
        Some(self.candidates.remove(0))
    }
}

ghost use Rattle.std.specs.Prelude.{◌≡◌, ◌<◌, ◌≤◌, ◌^◌, [], ◌++◌, ◌+◌, ◌*◌, IfOk};
ghost use Rattle.expiry_wheel.specs.Slots.{slot_of, start_of};

use crate::slots::{LEVELS, Slots};
use crate::{DueIndex, OrderedDue};
use agg_types::NoMemory;
use std::alloc::Global;
use std::marker::Model;

/// A due index kept as a wheel: levels of 256 slots, each with the entries of its own moments.
///
/// The wheel counts from a moment `now`. The entries up to its `near_end` stand together, and each
/// later one in the slot that its moment has. The level is the highest digit, in base 256, in which
/// the moment differs from `now`, and the slot is that digit. So a slot of the lowest level is one
/// moment, and a slot of any other is 256 times as long as one of the level below.
///
/// When nothing near is left, the first slot with entries is taken near as it is. While many
/// moments are near, each `plan` moves one more part of them back to a slot of its own; where
/// memory for that is refused, the part stays near.
pub struct Wheel<T: Ord> {
    now: u64,
    near_end: u64,
    near: OrderedDue<T>,
    slots: Slots<T>,
}

// By hand, so that what drops it elsewhere proves nothing of its parts.
impl<T: Ord + Drop> Drop for Wheel<T> {
    fn drop(self) {
        let Wheel {
            now: _,
            near_end: _,
            near: _,
            slots: _,
        } = self;
    }
}

impl<T: Ord> Model for Wheel<T> {
    ghost use Rattle.std.specs.Prelude.{List, ℕ, ◌++◌};
    ghost use Rattle.std.specs.Coded.{coded_list, coded×, coded_ℕ};
    ghost use Rattle.expiry_wheel.specs.Slots.{entries_in, IsWheel};

    ghost Value = { List (ℕ × T) };

    ghost coded = { coded_list (coded× coded_ℕ T.code) };

    ghost view = { λ a. a.near ++ entries_in a.slots };

    ghost invariant = { λ a. IsWheel T.cmp a.now a.near_end a.near a.slots };
}

impl<T: Ord + Drop> Wheel<T> {
    /// A wheel with no entry that counts from `now`.
    pub fn new(alloc: Global, now: u64) -> Result<Wheel<T>, NoMemory>
        ensures { IfOk result (λ wheel. wheel ≡ []) }
    {
        Ok(Wheel {
            now,
            near_end: now,
            near: OrderedDue::new(alloc),
            slots: Slots::new(alloc)?,
        })
    }

    // Moves the last slot's part of what is near to that slot.
    fn refine(&mut self)
        ensures { self.new ≡ self.old }
    {
        if self.near_end <= self.now || !self.near.is_crowded() {
            return;
        }
        let slot = slot_at(self.now, self.near_end);
        if !self.slots.slot(slot).is_empty() {
            return;
        }
        let start = slot_start(LEVELS - 1, self.now, self.near_end);
        if let Ok(mut part) = self.near.split_off(start) {
            self.slots.swap(slot, &mut part);
            self.near_end = start - 1;
        }
    }
}

impl<T: Ord + Drop> DueIndex<T> for Wheel<T> {
    ghost planned = { λ a. a };

    fn plan(&mut self, at: u64, item: T) -> Result<(), NoMemory> {
        self.refine();
        if at <= self.near_end {
            self.near.plan(at, item)
        } else {
            let slot = slot_at(self.now, at);
            self.slots.plan(slot, at, item)
        }
    }

    fn cancel(&mut self, at: u64, item: &T) -> bool {
        if at <= self.near_end {
            self.near.cancel(at, item)
        } else {
            let slot = slot_at(self.now, at);
            self.slots.cancel(slot, at, item)
        }
    }

    fn next_at(&self) -> Option<u64> {
        let (at, _) = self.after(None)?;
        Some(at)
    }

    fn take_due(&mut self, t: u64) -> Option<(u64, T)> {
        if !self.near.is_empty() {
            return self.near.take_due(t);
        }
        let slot = self.slots.first_occupied(0)?;
        let (first, last) = self.slots.slot(slot).ends()?;
        if first > t {
            return None;
        }
        self.slots.swap(slot, &mut self.near);
        self.now = first;
        self.near_end = last;
        self.near.take_due(t)
    }

    fn after<'a>(&'a self, given: Option<(u64, &'a T)>) -> Option<(u64, &'a T)> {
        let Some((at, item)) = given else {
            return match self.near.after(None) {
                Some(next) => Some(next),
                None => self.slots.first_from(0),
            };
        };
        if at <= self.near_end {
            return match self.near.after(Some((at, item))) {
                Some(next) => Some(next),
                None => self.slots.first_from(0),
            };
        }
        let slot = slot_at(self.now, at);
        match self.slots.slot(slot).after(Some((at, item))) {
            Some(next) => Some(next),
            None => self.slots.first_from(slot + 1),
        }
    }
}

// The slot of a moment on a wheel that counts from `now`.
fn slot_at(now: u64, at: u64) -> usize
    ensures slot { result ≡ slot_of 7 now at }
    ensures within { result < 2048 }
{
    slot_below(LEVELS - 1, now, at)
}

fn slot_below(levels: usize, now: u64, at: u64) -> usize
    requires few { levels ≤ 7 }
    requires fits { at < 256 ^ (levels + 1) }
    ensures slot { result ≡ slot_of levels now at }
    ensures within { result < 256 * (levels + 1) }
{
    if levels == 0 {
        at as usize
    } else if at / 256 == now / 256 {
        (at % 256) as usize
    } else {
        256 + slot_below(levels - 1, now / 256, at / 256)
    }
}

// The first moment after `now` with the slot of `at`.
fn slot_start(levels: usize, now: u64, at: u64) -> u64
    requires { levels ≤ 7 }
    ensures start { result ≡ start_of levels now at }
    ensures up_to { result ≤ at }
{
    if levels == 0 {
        at
    } else if at / 256 == now / 256 {
        at
    } else {
        256 * slot_start(levels - 1, now / 256, at / 256)
    }
}

ghost use Rattle.std.specs.Prelude.{◌≡◌, ◌<◌, ◌≤◌, ◌↔◌, [], ◌++◌, length, IsTrue, IfSome, IfNone};
ghost use Rattle.std.specs.Prelude.{IfOk, OnOk, OnErr};
ghost use Rattle.std.specs.List.{AllByRecursion};
ghost use Rattle.expiry_wheel.specs.Slots.{SpansEntries};
ghost use Rattle.std.specs.Option.{option_map};
ghost use Rattle.std.specs.Ordering.{nat_cmp};
ghost use Rattle.std.specs.BTreeMap.{is_at};
ghost use Rattle.std.specs.Map.{remove_entry};
ghost use Rattle.expiry_wheel.specs.Entries.{IsInOrder, first_entry, first_above, first_beyond};
ghost use Rattle.expiry_wheel.specs.Lent.{lent_entry};

use crate::DueIndex;
use crate::together::Together;
use agg_types::NoMemory;
use std::alloc::Global;
use std::collections::BTreeMap;
use std::marker::Model;
use std::ops::Bound;

// A map of more moments than this takes longer to search than to part.
const CROWD: usize = 128;

/// A due index kept as one ordered map, from each moment to the items that stand at it.
pub struct OrderedDue<T: Ord> {
    moments: BTreeMap<u64, Together<T>>,
    alloc: Global,
}

// By hand, so that what drops it elsewhere proves nothing of its parts.
impl<T: Ord + Drop> Drop for OrderedDue<T> {
    fn drop(self) {
        let OrderedDue {
            moments: _,
            alloc: _,
        } = self;
    }
}

impl<T: Ord> Model for OrderedDue<T> {
    ghost use Rattle.std.specs.Prelude.{List, ℕ};
    ghost use Rattle.std.specs.Coded.{coded_list, coded×, coded_ℕ};
    ghost use Rattle.expiry_wheel.specs.Moments.{entries_of, AreGroups};

    ghost Value = { List (ℕ × T) };

    ghost coded = { coded_list (coded× coded_ℕ T.code) };

    ghost view = { λ a. entries_of a.moments.entries };

    ghost invariant = { λ a. AreGroups T.cmp a.moments.entries };
}

impl<T: Ord> OrderedDue<T> {
    /// An index with no entry. Takes no memory.
    pub fn new(alloc: Global) -> OrderedDue<T>
        ensures { result ≡ [] }
    {
        OrderedDue {
            moments: BTreeMap::new(alloc),
            alloc,
        }
    }
}

impl<T: Ord + Drop> DueIndex<T> for OrderedDue<T> {
    ghost planned = { λ a. a };

    fn plan(&mut self, at: u64, item: T) -> Result<(), NoMemory> {
        if let Some(together) = self.moments.get_mut(&at) {
            return together.insert(item);
        }
        let together = Together::one(self.alloc, item);
        self.moments.insert(at, together)?;
        Ok(())
    }

    fn cancel(&mut self, at: u64, item: &T) -> bool {
        let Some(together) = self.moments.get_mut(&at) else {
            return false;
        };
        let found = together.remove(item);
        if together.is_empty() {
            drop_moment(&mut self.moments, at);
        }
        found
    }

    fn next_at(&self) -> Option<u64> {
        match self.moments.first_key_value() {
            Some((at, _)) => Some(*at),
            None => None,
        }
    }

    fn take_due(&mut self, t: u64) -> Option<(u64, T)> {
        let at = self.next_at()?;
        if at > t {
            return None;
        }
        let together = self.moments.get_mut(&at)?;
        let item = together.take_first()?;
        if together.is_empty() {
            drop_moment(&mut self.moments, at);
        }
        Some((at, item))
    }

    fn after<'a>(&'a self, given: Option<(u64, &'a T)>) -> Option<(u64, &'a T)> {
        match given {
            None => self.first(),
            Some((at, item)) => self.above(at, item),
        }
    }
}

impl<T: Ord + Drop> OrderedDue<T> {
    fn first(&self) -> Option<(u64, &T)>
        ensures first { option_map lent_entry result ≡ first_entry self.now }
        ensures ordered { IsInOrder T.cmp self.now }
    {
        let (at, together) = self.moments.first_key_value()?;
        Some((*at, together.first()?))
    }

    fn above<'a>(&'a self, at: u64, item: &'a T) -> Option<(u64, &'a T)>
        ensures above { option_map lent_entry result
            ≡ first_above T.cmp (Some (at, item.now)) self.now }
        ensures ordered { IsInOrder T.cmp self.now }
    {
        match self.above_there(at, item) {
            Some(next) => Some((at, next)),
            None => self.beyond(at),
        }
    }

    // The next item of the same moment. With none, the next entry is the first beyond.
    fn above_there<'a>(&'a self, at: u64, item: &'a T) -> Option<&'a T>
        ensures there { IfSome result
            (λ next. first_above T.cmp (Some (at, item.now)) self.now ≡ Some (at, next.now)) }
        ensures beyond { IfNone result
            (first_above T.cmp (Some (at, item.now)) self.now ≡ first_beyond at self.now) }
        ensures ordered { IsInOrder T.cmp self.now }
    {
        let together = self.moments.get(&at)?;
        together.above(item)
    }

    // The first entry of a later moment.
    fn beyond(&self, at: u64) -> Option<(u64, &T)>
        ensures { option_map lent_entry result ≡ first_beyond at self.now }
    {
        let (later, together) = self
            .moments
            .range((Bound::Excluded(at), Bound::Unbounded))
            .next()?;
        Some((*later, together.first()?))
    }
}

// What a wheel does with its slots.
impl<T: Ord + Drop> OrderedDue<T> {
    pub(crate) fn is_empty(&self) -> bool
        ensures { IsTrue result ↔ (self.now ≡ []) }
    {
        self.moments.is_empty()
    }

    // Whether so many moments stand here that some are better kept apart.
    pub(crate) fn is_crowded(&self) -> bool
        ensures { IsTrue result → 128 < length self.now }
    {
        self.moments.len() > CROWD
    }

    // The first moment and the last.
    pub(crate) fn ends(&self) -> Option<(u64, u64)>
        ensures none { IfNone result (self.now ≡ []) }
        ensures some { IfSome result (SpansEntries self.now) }
    {
        let (first, _) = self.moments.first_key_value()?;
        let (last, _) = self.moments.last_key_value()?;
        Some((*first, *last))
    }

    // Splits off the entries from a moment on. After `NoMemory` nothing has changed.
    pub(crate) fn split_off(&mut self, from: u64) -> Result<OrderedDue<T>, NoMemory>
        ensures parts { IfOk result (λ part. self.old ≡ self.new ++ part) }
        ensures before { OnOk result (AllByRecursion (λ e. e.0 < from) self.new) }
        ensures after { IfOk result (λ part. AllByRecursion (λ e. from ≤ e.0) part) }
        ensures err { OnErr result (self.new ≡ self.old) }
    {
        let moments = self.moments.split_off(&from)?;
        Ok(OrderedDue {
            moments,
            alloc: self.alloc,
        })
    }
}

// Takes a moment away with all that stands at it.
fn drop_moment<T: Ord + Drop>(moments: &mut BTreeMap<u64, Together<T>>, at: u64)
    ensures { moments.new.entries ≡ remove_entry (is_at (nat_cmp at)) moments.old.entries }
{
    moments.remove(&at);
}

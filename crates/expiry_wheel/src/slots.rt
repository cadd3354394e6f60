ghost use Rattle.std.specs.Prelude.{◌≡◌, ◌<◌, ◌≤◌, [], drop, length, slice_index_or, slice_set};
ghost use Rattle.std.specs.Prelude.{IfOk, OnOk, OnErr, MatchOption};
ghost use Rattle.std.specs.Option.{option_map};
ghost use Rattle.expiry_wheel.specs.Entries.{first_entry, has_entry, with_entry, without_entry};
ghost use Rattle.expiry_wheel.specs.Lent.{lent_entry};
ghost use Rattle.expiry_wheel.specs.Slots.{entries_in, IsFirstOccupied};

use crate::marks::Marks;
use crate::{DueIndex, OrderedDue};
use agg_types::NoMemory;
use std::alloc::Global;
use std::marker::Model;
use std::mem;

// Levels of 256 slots for every `u64` moment: 256 ^ 8 is 2 ^ 64.
pub(crate) const LEVELS: usize = 8;

const SLOTS: usize = 256 * LEVELS;

// The slots of a wheel, which contracts see as the list of their entries.
#[derive(Drop)]
pub(crate) struct Slots<T: Ord> {
    each: Vec<OrderedDue<T>>,
    // The slots that hold entries.
    marks: Marks,
}

impl<T: Ord> Model for Slots<T> {
    ghost use Rattle.std.specs.Prelude.{List, ℕ};
    ghost use Rattle.std.specs.Coded.{coded_list, coded×, coded_ℕ};
    ghost use Rattle.expiry_wheel.specs.Marks.{AreMarked};

    ghost Value = { List (List (ℕ × T)) };

    ghost coded = { coded_list (coded_list (coded× coded_ℕ T.code)) };

    ghost view = { λ a. a.each.items };

    ghost invariant = { λ a. AreMarked a.marks.words a.each.items };
}

impl<T: Ord + Drop> Slots<T> {
    pub(crate) fn new(alloc: Global) -> Result<Slots<T>, NoMemory>
        ensures complete { IfOk result (λ slots. length slots ≡ 2048) }
        ensures none { IfOk result (λ slots. entries_in slots ≡ []) }
    {
        let mut each = Vec::new(alloc);
        for _ in 0..SLOTS {
            each.push(OrderedDue::new(alloc))?;
        }
        Ok(Slots {
            each,
            marks: Marks::none(),
        })
    }

    pub(crate) fn slot(&self, slot: usize) -> &OrderedDue<T>
        requires { slot < 2048 }
        ensures { result.now ≡ slice_index_or self.now slot [] }
    {
        &self.each[slot]
    }

    pub(crate) fn plan(&mut self, slot: usize, at: u64, item: T) -> Result<(), NoMemory>
        requires { slot < 2048 }
        ensures ok { OnOk result (self.new ≡ slice_set self.old slot
            (with_entry T.cmp (slice_index_or self.old slot []) (at, item))) }
        ensures err { OnErr result (self.new ≡ self.old) }
    {
        self.each[slot].plan(at, item)?;
        self.marks.set(slot);
        Ok(())
    }

    pub(crate) fn cancel(&mut self, slot: usize, at: u64, item: &T) -> bool
        requires { slot < 2048 }
        ensures found { result ≡ has_entry T.cmp (slice_index_or self.old slot []) (at, item.now) }
        ensures removed { self.new ≡ slice_set self.old slot
            (without_entry T.cmp (slice_index_or self.old slot []) (at, item.now)) }
    {
        let found = self.each[slot].cancel(at, item);
        if self.each[slot].is_empty() {
            self.marks.clear(slot);
        }
        found
    }

    // Exchanges the entries of a slot for others.
    pub(crate) fn swap(&mut self, slot: usize, entries: &mut OrderedDue<T>)
        requires { slot < 2048 }
        ensures put { self.new ≡ slice_set self.old slot entries.old }
        ensures taken { entries.new ≡ slice_index_or self.old slot [] }
    {
        if entries.is_empty() {
            self.marks.clear(slot);
        } else {
            self.marks.set(slot);
        }
        mem::swap(&mut self.each[slot], entries);
    }

    // The first slot with entries of those from one on.
    pub(crate) fn first_occupied(&self, from: usize) -> Option<usize>
        requires { from ≤ 2048 }
        ensures { MatchOption result (entries_in (drop from self.now) ≡ [])
            (IsFirstOccupied self.now from) }
    {
        self.marks.first_from(from)
    }

    // The first entry of the slots from one on.
    pub(crate) fn first_from(&self, from: usize) -> Option<(u64, &T)>
        requires { from ≤ 2048 }
        ensures { option_map lent_entry result ≡ first_entry (entries_in (drop from self.now)) }
    {
        let slot = self.first_occupied(from)?;
        self.each[slot].after(None)
    }
}

//! The keys of a table with their rows in numbered places, each of which is looked at before one
//! of its rows ends.
ghost use Rattle.std.specs.Prelude.{◌≡◌, ◌≢◌, ◌≤◌, [], Some, None, length, IfOk, IsOk, IsSome};
ghost use Rattle.std.specs.Prelude.{IfSome, IfNone, OnOk, OnErr, ◌∷◌, slice_set, true, filter};
ghost use Rattle.std.specs.Map.{keys_of};
ghost use Rattle.std.specs.Option.{option_copied};
ghost use Rattle.place_index.specs.Places.{item_at, key_at, value_at, laid, filled, AreDistinct};
ghost use Rattle.place_index.specs.Places.{AreEmpty, IsAbsent, in_order};
ghost use Rattle.agg_types.specs.declared.limits.TheConstants.{LAST_MOMENT};
ghost use Rattle.peer_rows.specs.Arriving.{arrived_row};
ghost use Rattle.peer_rows.specs.Changed.{IsArrived, IsExchanged, IsPut, IsTaken};
ghost use Rattle.peer_rows.specs.Ends.{AreElse, ArePlanned, IsEndBy, lives_at, rows_at};
ghost use Rattle.peer_rows.specs.Table.{IsKept, rows_in};

use crate::ending::{Gone, end_all, end_due};
use crate::ends::{Ends, is_by};
use crate::key_rows::KeyRows;
use crate::{Arrival, Row};
use agg_types::{Key, NoMemory};
use place_index::{PlaceIndex, Trace};
use std::alloc::Global;
use std::marker::Model;

/// The places of a table's keys with their rows.
pub(crate) type KeyPlaces = PlaceIndex<Key, KeyRows>;

/// The places of a table's keys with their rows, and when each is looked at. Contracts see the
/// places.
#[derive(Drop)]
pub(crate) struct Index {
    pub(crate) keys: PlaceIndex<Key, KeyRows>,
    pub(crate) ends: Ends,
    // How many peers there are, and so rows in a place at most.
    peers: usize,
}

impl Model for Index {
    ghost use Rattle.std.specs.Prelude.{List, ℕ};
    ghost use Rattle.place_index.specs.Places.{Numbered};
    ghost use Rattle.peer_rows.specs.declared.row.Row.{Row};
    ghost use Rattle.peer_rows.specs.Ends.{ArePlanned};

    ghost Value = { Numbered (List ℕ) (List (ℕ × Row)) };

    ghost view = { λ a. a.keys };

    ghost invariant = { λ a. ArePlanned a.keys.places a.ends };
}

impl Index {
    /// No places, for the rows of so many peers.
    pub(crate) fn new(alloc: Global, peers: usize) -> Index
        ensures places { result.places ≡ [] }
    {
        Index {
            keys: PlaceIndex::new(alloc),
            ends: Ends::new(alloc),
            peers,
        }
    }

    /// How many places there are, empty ones among them.
    pub(crate) fn places(&self) -> usize
        ensures { result ≡ length self.now.places }
    {
        self.keys.places()
    }

    /// How many places are filled. No key lies in two.
    pub(crate) fn count(&self) -> usize
        ensures value { result ≡ filled self.now.places }
        ensures distinct { AreDistinct self.now.places }
    {
        self.keys.count()
    }

    /// The place of a key. No key has two.
    #[inline(never)]
    pub(crate) fn find(&self, key: &Key) -> Option<usize>
        ensures some { IfSome result (λ at. key_at self.now.places at ≡ Some key.now) }
        ensures none { IfNone result (IsAbsent self.now.places key.now) }
        ensures distinct { AreDistinct self.now.places }
    {
        self.keys.find(key)
    }

    /// Where a key is looked for. Reads no memory but the key's.
    #[inline]
    pub(crate) fn trace(&self, key: &Key) -> Trace {
        self.keys.trace(key)
    }

    /// The trace with a first look at what it leads to.
    #[inline]
    pub(crate) fn touch(&self, trace: Trace) -> Trace {
        self.keys.touch(trace)
    }

    /// Where the key of a trace may lie, without a look there.
    #[inline]
    pub(crate) fn guess(&self, trace: Trace) -> Option<usize> {
        self.keys.guess(trace)
    }

    /// The key in a place.
    #[inline]
    pub(crate) fn key(&self, at: usize) -> Option<&Key>
        ensures { option_copied result ≡ key_at self.now.places at }
    {
        self.keys.key(at)
    }

    /// The rows in a place.
    #[inline]
    pub(crate) fn value(&self, at: usize) -> Option<&KeyRows>
        ensures { option_copied result ≡ value_at self.now.places at }
    {
        self.keys.value(at)
    }

    /// The first place from a number on that isn't empty.
    pub(crate) fn first_from(&self, from: usize) -> Option<usize>
        ensures some { IfSome result (λ at. from ≤ at) }
        ensures filled { IfSome result (λ at. IsSome (item_at self.now.places at)) }
        ensures before { IfSome result (λ at. AreEmpty self.now.places from at) }
        ensures none { IfNone result (AreEmpty self.now.places from (length self.now.places)) }
    {
        self.keys.first_from(from)
    }

    /// Takes all places away. Takes no memory.
    pub(crate) fn clear(&mut self, alloc: Global)
        ensures { self.new.places ≡ [] }
    {
        *self = Index::new(alloc, self.peers);
    }

    /// Makes room for so many further keys.
    pub(crate) fn reserve(&mut self, keys: usize) -> Result<(), NoMemory>
        ensures places { self.new.places ≡ self.old.places }
    {
        self.keys.reserve(keys)
    }

    /// Lays a key that has no place down with its rows, which are looked at in time.
    pub(crate) fn insert(&mut self, key: Key, rows: KeyRows, now: u64) -> Result<usize, NoMemory>
        requires { IsAbsent self.old.places key }
        ensures bound { IfOk result (λ at. at ≤ length self.old.places) }
        ensures empty { IfOk result (λ at. item_at self.old.places at ≡ None) }
        ensures ok { IfOk result
            (λ at. self.new.places ≡ laid self.old.places at (Some (key, rows))) }
        ensures err { OnErr result (self.new.places ≡ self.old.places) }
    {
        let least = rows.least_end();
        let at = self.keys.insert(key, rows)?;
        self.ends.note(at, now, least);
        Ok(at)
    }

    /// Empties a place, and answers what lay there.
    pub(crate) fn remove(&mut self, at: usize) -> Option<(Key, KeyRows)>
        ensures value { result ≡ item_at self.old.places at }
        ensures after { self.new.places ≡ slice_set self.old.places at None }
    {
        let item = self.keys.remove(at);
        self.ends.note(at, 0, None);
        item
    }

    /// Puts a peer's row into a place in the stead of an older one, which comes back.
    pub(crate) fn put(&mut self, at: usize, peer: usize, row: Row) -> Result<Option<Row>, NoMemory>
        requires { IsSome (item_at self.old.places at) }
        ensures { IsPut peer row result at self.old.places self.new.places }
    {
        let now = row.arrived();
        let in_time = ends_by(self.ends.plans.at(at), row.end());
        let most = self.peers;
        let rows = self.keys.value_mut(at);
        let old = rows.put(peer, row, most);
        if in_time {
            // (the other rows needn't be asked: they may be many)
            return old;
        }
        settle(&self.keys, &mut self.ends, at, now);
        old
    }

    /// Exchanges a peer's row in a place for this one, if there is one.
    #[inline(always)]
    pub(crate) fn exchange(&mut self, at: usize, peer: usize, row: &mut Row) -> bool
        requires { IsSome (item_at self.old.places at) }
        ensures { IsExchanged peer row.old row.new result at self.old.places self.new.places }
    {
        let now = row.arrived();
        let end = row.end();
        let rows = self.keys.value_mut(at);
        let found = rows.exchange(peer, row);
        if ends_by(row.end(), end) {
            return found;
        }
        settle(&self.keys, &mut self.ends, at, now);
        found
    }

    /// Makes a peer's row in a place one of cells that arrive, if there is one and they can be laid
    /// there.
    #[inline(always)]
    pub(crate) fn arrive(&mut self, at: usize, peer: usize, arrival: &Arrival<'_>) -> bool
        requires some { IsSome (item_at self.old.places at) }
        requires early { arrival.now.t ≤ LAST_MOMENT }
        ensures { IsArrived peer (arrived_row arrival.now) result at
            self.old.places self.new.places }
    {
        let rows = self.keys.value_mut(at);
        let Some(end) = rows.arrive(peer, arrival) else {
            return false;
        };
        if ends_by(end, arrival.end()) {
            return true;
        }
        settle(&self.keys, &mut self.ends, at, arrival.t);
        true
    }

    /// Takes a peer's row out of a place, which isn't the only one there.
    pub(crate) fn take(&mut self, at: usize, peer: usize) -> Option<Row>
        requires some { IsSome (item_at self.old.places at) }
        requires others { keys_of (rows_at self.old.places at) ≢ peer ∷ [] }
        ensures { IsTaken peer result at self.old.places self.new.places }
    {
        let rows = self.keys.value_mut(at);
        let old = rows.take(peer);
        settle(&self.keys, &mut self.ends, at, 0);
        old
    }
}

impl Index {
    /// A moment up to `t` by which few places are looked at: so many, or those of one moment.
    pub(crate) fn few_by(&self, t: u64, most: usize) -> u64
        ensures { result ≤ t }
    {
        self.ends.plans.few_by(t, most)
    }

    /// Takes the rows out that have ended at a moment, and counts them down at their peers. The
    /// keys that have none left are told, if they are to be, as far as there is memory for them.
    pub(crate) fn end_rows(
        &mut self,
        counts: &mut Vec<usize>,
        t: u64,
        table: usize,
        told: bool,
        gone: &mut Gone,
    )
        requires { IsKept (in_order self.old.places) counts.old.items }
        ensures kept { IsKept (in_order self.new.places) counts.new.items }
        ensures peers { length counts.new.items ≡ length counts.old.items }
        ensures rows { rows_in (in_order self.new.places)
            ≡ filter (λ e. lives_at t e.1) (rows_in (in_order self.old.places)) }
    {
        if self.ends.missed {
            end_all(&mut self.keys, &mut self.ends, counts, t, table, told, gone);
        } else {
            end_due(&mut self.keys, &mut self.ends, counts, t, table, told, gone);
        }
    }
}

// Whether there are two ends, and the first is no later than the other.
fn ends_by(first: Option<u64>, other: Option<u64>) -> bool
    ensures { result ≡ true → IsEndBy first other }
{
    match other {
        None => false,
        Some(end) => is_by(first, end),
    }
}

// Sees to it that a place is looked at by the least end of its rows.
#[inline(never)]
fn settle(keys: &KeyPlaces, ends: &mut Ends, at: usize, now: u64)
    requires { AreElse at keys.now.places ends.old }
    ensures { ArePlanned keys.now.places ends.new }
{
    let least = match keys.value(at) {
        Some(rows) => rows.least_end(),
        None => None,
    };
    ends.note(at, now, least);
}

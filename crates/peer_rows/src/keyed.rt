//! The rows of a table by key, without the counts: an exact index says in which place the rows of
//! each key lie, and keeps no order.
ghost use Rattle.std.specs.Prelude.{◌≡◌, ◌^◌, ◌<◌, ◌↔◌, List, [], ◌∷◌, Some, None, length, IsOk};
ghost use Rattle.std.specs.Prelude.{IsSome, IfSome, IfNone, IfOk, OnOk, OnErr, IsTrue, MatchBool};
ghost use Rattle.std.specs.Prelude.{MatchOption, is_some, slice_set, filter, true, ◌≤◌};
ghost use Rattle.std.specs.Option.{option_copied};
ghost use Rattle.std.specs.Ordering.{nat_cmp};
ghost use Rattle.std.specs.Cmp.Lexicographic.{slice_cmp};
ghost use Rattle.std.specs.Map.{keys_of, lookup, remove_entry};
ghost use Rattle.std.specs.BTreeMap.{insert_entry, is_at};
ghost use Rattle.std.specs.List.Sorted.{IsStrictlySortedBy};
ghost use Rattle.place_index.specs.Places.{item_at, key_at, value_at, AreDistinct, IsAbsent};
ghost use Rattle.agg_types.specs.declared.limits.TheConstants.{LAST_MOMENT};
ghost use Rattle.peer_rows.specs.Arriving.{HasCome, arrived_row, is_new};
ghost use Rattle.peer_rows.specs.Ends.{lives_at};
ghost use Rattle.place_index.specs.Places.{in_order};
ghost use Rattle.peer_rows.specs.Table.{IsKept};
ghost use Rattle.peer_rows.specs.Walk.{AreKeysOf};

use crate::ending::Gone;
use crate::index::Index;
use crate::key_rows::KeyRows;
use crate::listing::sorted;
use crate::{Arrival, Arrived, ByKey, EachKey, Row, Spot};
use agg_types::{Key, NoMemory};
use place_index::Trace;
use std::alloc::Global;
use std::marker::Model;
use std::mem;

/// The rows of a table, by key. Contracts see the list of the keys in order, with the rows of each.
#[derive(Drop)]
pub(crate) struct Keyed {
    index: Index,
    alloc: Global,
}

impl Model for Keyed {
    ghost use Rattle.std.specs.Prelude.{List, ℕ};
    ghost use Rattle.peer_rows.specs.declared.row.Row.{Row};
    ghost use Rattle.peer_rows.specs.Ends.{lives_at};
    ghost use Rattle.place_index.specs.Places.{in_order};
    ghost use Rattle.peer_rows.specs.Table.{IsKept};

    ghost Value = { List (List ℕ × List (ℕ × Row)) };

    ghost view = { λ k. in_order k.index.places };
}

impl Keyed {
    ghost use Rattle.peer_rows.specs.Table.{spot_cmp, rows_in, same_key, EachPeerOnce};

    /// No rows, for so many peers.
    pub(crate) fn new(alloc: Global, peers: usize) -> Keyed
        ensures { result ≡ [] }
    {
        Keyed {
            index: Index::new(alloc, peers),
            alloc,
        }
    }

    /// How many keys there are.
    pub(crate) fn len(&self) -> usize
        ensures value { result ≡ length self.now }
        ensures small { result < 2 ^ 64 }
    {
        self.index.count()
    }

    /// Where the rows of a key lie.
    pub(crate) fn spot_near(&self, hint: Option<Spot>, key: &Key) -> Option<Spot> {
        Some(Spot::new(find(&self.index, hint, key)?))
    }

    /// Where a key is looked for. Reads no memory but the key's.
    #[inline]
    pub(crate) fn trace(&self, key: &Key) -> Trace {
        self.index.trace(key)
    }

    /// The trace with a first look at what it leads to.
    #[inline]
    pub(crate) fn touch(&self, trace: Trace) -> Trace {
        self.index.touch(trace)
    }

    /// Where the rows of a trace's key may lie, without a look there.
    #[inline]
    pub(crate) fn guess(&self, trace: Trace) -> Option<Spot> {
        Some(Spot::new(self.index.guess(trace)?))
    }

    /// The spot, if the rows of the key lie there.
    #[inline]
    pub(crate) fn confirm(&self, spot: Spot, key: &Key) -> Option<Spot> {
        Some(Spot::new(hinted(&self.index, Some(spot), key)?))
    }

    /// The spot with a first look at where a peer's row lies there.
    #[inline]
    pub(crate) fn touch_row(&self, spot: Spot, peer: usize) -> Option<Spot> {
        let rows = self.index.value(spot.slot as usize)?;
        if rows.touch(peer) { Some(spot) } else { None }
    }

    /// The rows of a key.
    pub(crate) fn get(&self, hint: Option<Spot>, key: &Key) -> Option<&KeyRows>
        ensures value { option_copied result
            ≡ lookup (is_at (slice_cmp nat_cmp key.now)) self.now }
        ensures ordered { IsStrictlySortedBy (slice_cmp nat_cmp) (keys_of self.now) }
    {
        let at = find(&self.index, hint, key)?;
        self.index.value(at)
    }

    /// The row of a peer and key.
    pub(crate) fn row_at(&self, hint: Option<Spot>, peer: usize, key: &Key) -> Option<&Row>
        ensures { option_copied result ≡ lookup (is_at (spot_cmp (key.now, peer)))
            (rows_in self.now) }
    {
        self.get(hint, key)?.get(peer)
    }

    /// Puts a row in the place of an older one, which comes back.
    pub(crate) fn put(
        &mut self,
        hint: Option<Spot>,
        peer: usize,
        key: &Key,
        row: Row,
    ) -> Result<Option<Row>, NoMemory>
        requires { EachPeerOnce self.old }
        ensures ok { OnOk result (rows_in self.new
            ≡ insert_entry spot_cmp (rows_in self.old) (key.now, peer) row) }
        ensures old { IfOk result (λ old. old
            ≡ lookup (is_at (spot_cmp (key.now, peer))) (rows_in self.old)) }
        ensures held { IsSome (lookup (is_at (spot_cmp (key.now, peer))) (rows_in self.old))
            → IsOk result }
        ensures err { OnErr result (self.new ≡ self.old) }

        // Each peer stands once at a key, and the keys in order.
        ensures once { EachPeerOnce self.new }
        ensures ordered { IsStrictlySortedBy (slice_cmp nat_cmp) (keys_of self.new) }
    {
        let Some(at) = find(&self.index, hint, key) else {
            let mut row = row;
            insert_new(&mut self.index, self.alloc, peer, key, &mut row)?;
            return Ok(None);
        };
        self.index.put(at, peer, row)
    }

    /// Exchanges the row of a peer and key for this one, if there is one.
    #[inline(always)]
    pub(crate) fn exchange(
        &mut self,
        hint: Option<Spot>,
        peer: usize,
        key: &Key,
        row: &mut Row,
    ) -> bool
        requires { EachPeerOnce self.old }
        ensures found { result
            ≡ is_some (lookup (is_at (spot_cmp (key.now, peer))) (rows_in self.old)) }
        ensures rows { MatchBool result (rows_in self.new
            ≡ insert_entry spot_cmp (rows_in self.old) (key.now, peer) row.old)
            (self.new ≡ self.old) }
        ensures row { MatchBool result (lookup (is_at (spot_cmp (key.now, peer)))
            (rows_in self.old) ≡ Some row.new) (row.new ≡ row.old) }
        ensures once { EachPeerOnce self.new }
        ensures ordered { IsStrictlySortedBy (slice_cmp nat_cmp) (keys_of self.new) }
    {
        let Some(at) = find(&self.index, hint, key) else {
            return false;
        };
        self.index.exchange(at, peer, row)
    }

    /// Makes the row of a peer and key one of cells that arrive, if there is one and they can be
    /// laid there.
    #[inline(always)]
    pub(crate) fn arrive(
        &mut self,
        hint: Option<Spot>,
        peer: usize,
        key: &Key,
        arrival: &Arrival<'_>,
    ) -> bool
        requires peers { EachPeerOnce self.old }
        requires early { arrival.now.t ≤ LAST_MOMENT }
        ensures held { result ≡ true
            → IsSome (lookup (is_at (spot_cmp (key.now, peer))) (rows_in self.old)) }
        ensures rows { MatchBool result (rows_in self.new
            ≡ insert_entry spot_cmp (rows_in self.old) (key.now, peer) (arrived_row arrival.now))
            (self.new ≡ self.old) }
        ensures once { EachPeerOnce self.new }
        ensures ordered { IsStrictlySortedBy (slice_cmp nat_cmp) (keys_of self.new) }
    {
        let Some(at) = find(&self.index, hint, key) else {
            return false;
        };
        self.index.arrive(at, peer, arrival)
    }

    /// Puts the first row of a key, which is left blank then. Where the key has rows, nothing
    /// changes, and where they lie comes back.
    pub(crate) fn insert_first(
        &mut self,
        peer: usize,
        key: &Key,
        row: &mut Row,
    ) -> Result<Option<Spot>, NoMemory>
        requires { EachPeerOnce self.old }
        ensures new { IfOk result (λ held. IfNone held
            (lookup (is_at (slice_cmp nat_cmp key.now)) self.old ≡ None)) }
        ensures held { IfOk result (λ held. IfSome held
            (λ _. IsSome (lookup (is_at (slice_cmp nat_cmp key.now)) self.old))) }
        ensures ok { IfOk result (λ held. MatchOption held (rows_in self.new
            ≡ insert_entry spot_cmp (rows_in self.old) (key.now, peer) row.old)
            (λ _. (self.new ≡ self.old) × (row.new ≡ row.old))) }
        ensures err { OnErr result (self.new ≡ self.old) }
        ensures once { EachPeerOnce self.new }
        ensures ordered { IsStrictlySortedBy (slice_cmp nat_cmp) (keys_of self.new) }
    {
        let Some(at) = find(&self.index, None, key) else {
            insert_new(&mut self.index, self.alloc, peer, key, row)?;
            return Ok(None);
        };
        Ok(Some(Spot::new(at)))
    }

    /// Puts the first row of a key, which cells make that arrive. Where the key has rows, no row is
    /// made, nothing changes, and where they lie comes back.
    pub(crate) fn insert_arrival(
        &mut self,
        peer: usize,
        key: &Key,
        arrival: &Arrival<'_>,
    ) -> Result<Arrived, NoMemory>
        requires peers { EachPeerOnce self.old }
        requires early { arrival.now.t ≤ LAST_MOMENT }
        ensures new { IfOk result (λ arrived. is_new arrived ≡ true
            → lookup (is_at (slice_cmp nat_cmp key.now)) self.old ≡ None) }
        ensures came { IfOk result (λ arrived. HasCome arrived
            (filter (λ e. same_key key.now e.0.0) (rows_in self.old))) }
        ensures ok { IfOk result (λ arrived. MatchBool (is_new arrived) (rows_in self.new
            ≡ insert_entry spot_cmp (rows_in self.old) (key.now, peer) (arrived_row arrival.now))
            (self.new ≡ self.old)) }
        ensures err { OnErr result (self.new ≡ self.old) }
        ensures once { EachPeerOnce self.new }
        ensures ordered { IsStrictlySortedBy (slice_cmp nat_cmp) (keys_of self.new) }
    {
        let Some(at) = find(&self.index, None, key) else {
            let mut row = Row::blank();
            if !row.arrive(arrival) {
                return Ok(Arrived::Misfit);
            }
            insert_new(&mut self.index, self.alloc, peer, key, &mut row)?;
            return Ok(Arrived::New);
        };
        Ok(Arrived::Held(Spot::new(at)))
    }

    /// Takes a row out, and its key with it where it was the key's last.
    pub(crate) fn take(&mut self, hint: Option<Spot>, peer: usize, key: &Key) -> Option<Row>
        requires { EachPeerOnce self.old }
        ensures value { result ≡ lookup (is_at (spot_cmp (key.now, peer))) (rows_in self.old) }
        ensures after { rows_in self.new
            ≡ remove_entry (is_at (spot_cmp (key.now, peer))) (rows_in self.old) }
        ensures ordered { IsStrictlySortedBy (slice_cmp nat_cmp) (keys_of self.new) }
        ensures once { EachPeerOnce self.new }
    {
        let at = find(&self.index, hint, key)?;
        if is_only(&self.index, at, peer) {
            let rows = taken(&mut self.index, at);
            rows.into_row(peer)
        } else {
            self.index.take(at, peer)
        }
    }

    /// Takes the rows of a key out.
    pub(crate) fn remove(&mut self, hint: Option<Spot>, key: &Key) -> Option<KeyRows>
        ensures value { result ≡ lookup (is_at (slice_cmp nat_cmp key.now)) self.old }
        ensures entries { self.new ≡ remove_entry (is_at (slice_cmp nat_cmp key.now)) self.old }
        ensures ordered { IsStrictlySortedBy (slice_cmp nat_cmp) (keys_of self.new) }
        ensures unchanged { IfNone result (self.new ≡ self.old) }
    {
        let at = find(&self.index, hint, key)?;
        Some(taken(&mut self.index, at))
    }

    /// Takes all rows out.
    pub(crate) fn clear(&mut self)
        ensures { self.new ≡ [] }
    {
        self.index.clear(self.alloc);
    }

    /// A moment up to `t` by which few keys are looked at: so many, or those of one moment.
    pub(crate) fn few_by(&self, t: u64, most: usize) -> u64
        ensures { result ≤ t }
    {
        self.index.few_by(t, most)
    }

    /// Takes the rows out that have ended at a moment, and counts them down at their peers. The
    /// keys that have none left are told, if they are to be, as far as there is memory for them.
    pub(crate) fn end_rows(
        &mut self,
        counts: &mut Vec<usize>,
        t: u64,
        table: usize,
        told: bool,
        gone: &mut Gone,
    )
        requires { IsKept self.old counts.old.items }
        ensures kept { IsKept self.new counts.new.items }
        ensures peers { length counts.new.items ≡ length counts.old.items }
        ensures rows { rows_in self.new ≡ filter (λ e. lives_at t e.1) (rows_in self.old) }
    {
        self.index.end_rows(counts, t, table, told, gone);
    }

    /// Each key once with its rows, in no order.
    pub(crate) fn each_key(&self) -> EachKey<'_>
        ensures { AreKeysOf self.now result }
    {
        let _distinct = self.index.count();
        EachKey::new(&self.index)
    }

    /// All rows, by key, then by peer, in an order that is made now.
    pub(crate) fn by_key(&self) -> Result<ByKey<'_>, NoMemory>
        ensures { IfOk result (λ rows. rows ≡ rows_in self.now) }
    {
        let keys = sorted(self.alloc, &self.index)?;
        Ok(ByKey::new(keys))
    }
}

// Whether a key lies in a place.
#[inline(always)]
fn is_of(index: &Index, at: usize, key: &Key) -> bool
    ensures { IsTrue result → key_at index.now.places at ≡ Some key.now }
{
    match index.key(at) {
        Some(own) => *own == *key,
        None => false,
    }
}

// The place that a hint says, if the rows of the key lie there.
#[inline(always)]
fn hinted(index: &Index, hint: Option<Spot>, key: &Key) -> Option<usize>
    ensures { IfSome result (λ at. key_at index.now.places at ≡ Some key.now) }
{
    let at = hint?.slot as usize;
    if is_of(index, at, key) {
        Some(at)
    } else {
        None
    }
}

// The place in which the rows of a key lie.
#[inline(always)]
fn find(index: &Index, hint: Option<Spot>, key: &Key) -> Option<usize>
    ensures some { IfSome result (λ at. key_at index.now.places at ≡ Some key.now) }
    ensures none { IfNone result (IsAbsent index.now.places key.now) }
    ensures distinct { AreDistinct index.now.places }
{
    let _keys = index.count();
    if let Some(at) = hinted(index, hint, key) {
        return Some(at);
    }
    index.find(key)
}

// Whether a peer's row is the only one in a place.
fn is_only(index: &Index, at: usize, peer: usize) -> bool
    requires { IsSome (item_at index.now.places at) }
    ensures { IfSome (value_at index.now.places at)
        (λ rows. IsTrue result ↔ (keys_of rows ≡ peer ∷ [])) }
{
    match index.value(at) {
        Some(rows) => rows.is_only(peer),
        None => false,
    }
}

// Lays down the first row of a new key, which is left blank then.
fn insert_new(
    index: &mut Index,
    alloc: Global,
    peer: usize,
    key: &Key,
    row: &mut Row,
) -> Result<(), NoMemory>
    requires { IsAbsent index.old.places key.now }
    ensures ok { OnOk result (in_order index.new.places ≡ insert_entry (slice_cmp nat_cmp)
        (in_order index.old.places) key.now ((peer, row.old) ∷ [])) }
    ensures err { OnErr result (index.new.places ≡ index.old.places) }
{
    let number = narrow(peer)?;
    let own = key.duplicate(alloc)?;
    index.reserve(1)?;
    let now = row.arrived();
    let first = mem::replace(row, Row::blank());
    let _at = index.insert(own, KeyRows::new(alloc, number, first), now)?;
    Ok(())
}

// The number of a peer in 32 bits: no memory has the counts of more peers.
fn narrow(peer: usize) -> Result<u32, NoMemory>
    ensures { IfOk result (λ number. number ≡ peer) }
{
    match u32::try_from(peer) {
        Ok(number) => Ok(number),
        Err(_) => Err(NoMemory),
    }
}

// Empties a place, and answers the rows that lay there.
fn taken(index: &mut Index, at: usize) -> KeyRows
    requires { IsSome (item_at index.old.places at) }
    ensures value { value_at index.old.places at ≡ Some result }
    ensures after { index.new.places ≡ slice_set index.old.places at None }
{
    match index.remove(at) {
        Some((_, rows)) => rows,
        None => unreachable!(),
    }
}

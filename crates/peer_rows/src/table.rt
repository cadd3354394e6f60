ghost use Rattle.std.specs.Prelude.{◌≡◌, ◌≢◌, ◌+◌, ◌<◌, ◌≤◌, ℕ, [], length, filter, not, map};
ghost use Rattle.std.specs.Prelude.{slice_index, IsOk, IsSome, IfNone, IfSome, IfOk, OnOk, OnErr};
ghost use Rattle.std.specs.Prelude.{Some, replicate, true};
ghost use Rattle.std.specs.Prelude.{MatchBool, MatchOption, is_some, if◌then◌else◌};
ghost use Rattle.std.specs.Option.{option_copied};
ghost use Rattle.std.specs.List.{dedup};
ghost use Rattle.std.specs.Map.{lookup, remove_entry};
ghost use Rattle.std.specs.BTreeMap.{insert_entry, is_at};
ghost use Rattle.agg_types.specs.declared.limits.TheConstants.{LAST_MOMENT};
ghost use Rattle.peer_rows.specs.Arriving.{HasCome, arrived_row, is_new};
ghost use Rattle.peer_rows.specs.Ends.{ended};
ghost use Rattle.peer_rows.specs.Table.{rows_at_peer};
ghost use Rattle.peer_rows.specs.Walk.{IsEachKey};

use crate::ending::Gone;
use crate::key_rows::KeyRows;
use crate::keyed::Keyed;
use crate::{Arrival, Arrived, ByKey, EachKey, OfKey, Row, Spot};
use agg_types::{Key, NoMemory};
use place_index::Trace;
use std::alloc::Global;
use std::marker::Model;

/// The rows of a table: by key, then by peer, with the number of each peer's rows beside.
#[derive(Drop)]
pub(crate) struct Table {
    keys: Keyed,
    counts: Vec<usize>,
}

impl Model for Table {
    ghost use Rattle.std.specs.Prelude.{length};
    ghost use Rattle.peer_rows.specs.Table.{TableRows, rows_in, IsKept};

    ghost Value = { TableRows };

    ghost view = { λ table. record {
      peers = length table.counts.items;
      entries = rows_in
          table.keys;
    } };

    ghost invariant = { λ table. IsKept table.keys table.counts.items };
}

impl Table {
    ghost use Rattle.peer_rows.specs.Table.{spot_cmp, same_key, rows_of_peer};

    /// A table without rows.
    pub(crate) fn new(alloc: Global, peers: usize) -> Result<Table, NoMemory>
        ensures { IfOk result (λ table. table ≡ record { peers = peers; entries = [] }) }
    {
        Ok(Table {
            keys: Keyed::new(alloc, peers),
            counts: vec![in alloc; 0; peers]?,
        })
    }

    /// The row of a peer and key.
    pub(crate) fn get(&self, hint: Option<Spot>, peer: usize, key: &Key) -> Option<&Row>
        ensures { option_copied result
            ≡ lookup (is_at (spot_cmp (key.now, peer))) self.now.entries }
    {
        self.keys.row_at(hint, peer, key)
    }

    /// How many rows a peer holds.
    pub(crate) fn count(&self, peer: usize) -> usize
        requires { peer < self.now.peers }
        ensures { result ≡ rows_of_peer peer self.now.entries }
    {
        self.counts[peer]
    }

    /// How many keys have a row.
    pub(crate) fn used(&self) -> usize
        ensures { result ≡ length (dedup same_key (map (λ e. e.0.0) self.now.entries)) }
    {
        self.keys.len()
    }

    /// Puts a row in the place of an older one, which comes back.
    pub(crate) fn put(
        &mut self,
        hint: Option<Spot>,
        peer: usize,
        key: &Key,
        row: Row,
    ) -> Result<Option<Row>, NoMemory>
        requires { peer < self.old.peers }
        ensures ok { OnOk result (self.new ≡ record self.old
            { entries = insert_entry spot_cmp self.old.entries (key.now, peer) row }) }
        ensures old { IfOk result (λ old. old
            ≡ lookup (is_at (spot_cmp (key.now, peer))) self.old.entries) }
        ensures held { IsSome (lookup (is_at (spot_cmp (key.now, peer))) self.old.entries)
            → IsOk result }
        ensures err { OnErr result (self.new ≡ self.old) }
    {
        let old = self.keys.put(hint, peer, key, row)?;
        // Each peer has at most a row of each key, so its count stays below 2^64.
        let _keys = self.keys.len();
        if old.is_none() {
            self.counts[peer] += 1;
        }
        Ok(old)
    }

    /// Where the rows of a key lie.
    pub(crate) fn spot_near(&self, hint: Option<Spot>, key: &Key) -> Option<Spot> {
        self.keys.spot_near(hint, key)
    }

    /// Where a key is looked for. Reads no memory but the key's.
    #[inline]
    pub(crate) fn trace(&self, key: &Key) -> Trace {
        self.keys.trace(key)
    }

    /// The trace with a first look at what it leads to.
    #[inline]
    pub(crate) fn touch(&self, trace: Trace) -> Trace {
        self.keys.touch(trace)
    }

    /// Where the rows of a trace's key may lie, without a look there.
    #[inline]
    pub(crate) fn guess(&self, trace: Trace) -> Option<Spot> {
        self.keys.guess(trace)
    }

    /// The spot, if the rows of the key lie there.
    #[inline]
    pub(crate) fn confirm(&self, spot: Spot, key: &Key) -> Option<Spot> {
        self.keys.confirm(spot, key)
    }

    /// The spot with a first look at where a peer's row lies there.
    #[inline]
    pub(crate) fn touch_row(&self, spot: Spot, peer: usize) -> Option<Spot> {
        self.keys.touch_row(spot, peer)
    }

    /// How many rows there are, over all peers.
    pub(crate) fn count_all(&self) -> usize {
        let mut rows = 0usize;
        for count in self.counts.as_slice() {
            rows = rows.saturating_add(*count);
        }
        rows
    }

    /// Exchanges the row of a peer and key for this one, if there is one.
    #[inline(always)]
    pub(crate) fn exchange(
        &mut self,
        hint: Option<Spot>,
        peer: usize,
        key: &Key,
        row: &mut Row,
    ) -> bool
        ensures found { result
            ≡ is_some (lookup (is_at (spot_cmp (key.now, peer))) self.old.entries) }
        ensures rows { self.new ≡ record self.old {
          entries = if result
              then insert_entry spot_cmp self.old.entries (key.now, peer) row.old
              else self.old.entries;
        } }
        ensures row { MatchBool result
            (lookup (is_at (spot_cmp (key.now, peer))) self.old.entries ≡ Some row.new)
            (row.new ≡ row.old) }
    {
        self.keys.exchange(hint, peer, key, row)
    }

    /// Makes the row of a peer and key one of cells that arrive, if there is one and they can be
    /// laid there.
    #[inline(always)]
    pub(crate) fn arrive(
        &mut self,
        hint: Option<Spot>,
        peer: usize,
        key: &Key,
        arrival: &Arrival<'_>,
    ) -> bool
        requires { arrival.now.t ≤ LAST_MOMENT }
        ensures held { result ≡ true
            → IsSome (lookup (is_at (spot_cmp (key.now, peer))) self.old.entries) }
        ensures rows { self.new ≡ record self.old {
          entries = if result
              then insert_entry spot_cmp self.old.entries (key.now, peer)
              (arrived_row arrival.now)
              else self.old.entries;
        } }
    {
        self.keys.arrive(hint, peer, key, arrival)
    }

    /// Puts the first row of a key, which is left blank then. Where the key has rows, nothing
    /// changes, and where they lie comes back.
    pub(crate) fn insert_first(
        &mut self,
        peer: usize,
        key: &Key,
        row: &mut Row,
    ) -> Result<Option<Spot>, NoMemory>
        requires { peer < self.old.peers }
        ensures new { IfOk result (λ held. IfNone held
            (filter (λ e. same_key key.now e.0.0) self.old.entries ≡ [])) }
        ensures held { IfOk result (λ held. IfSome held
            (λ _. filter (λ e. same_key key.now e.0.0) self.old.entries ≢ [])) }
        ensures ok { IfOk result (λ held. MatchOption held (self.new ≡ record self.old
            { entries = insert_entry spot_cmp self.old.entries (key.now, peer) row.old })
            (λ _. (self.new ≡ self.old) × (row.new ≡ row.old))) }
        ensures err { OnErr result (self.new ≡ self.old) }
    {
        let held = self.keys.insert_first(peer, key, row)?;
        let _keys = self.keys.len();
        if held.is_none() {
            self.counts[peer] += 1;
        }
        Ok(held)
    }

    /// Puts the first row of a key, which cells make that arrive. Where the key has rows, nothing
    /// changes, and where they lie comes back.
    pub(crate) fn insert_arrival(
        &mut self,
        peer: usize,
        key: &Key,
        arrival: &Arrival<'_>,
    ) -> Result<Arrived, NoMemory>
        requires peer_in { peer < self.old.peers }
        requires early { arrival.now.t ≤ LAST_MOMENT }
        ensures came { IfOk result (λ arrived. HasCome arrived
            (filter (λ e. same_key key.now e.0.0) self.old.entries)) }
        ensures ok { IfOk result (λ arrived. self.new ≡ record self.old {
          entries = if is_new arrived
              then insert_entry spot_cmp self.old.entries (key.now, peer)
              (arrived_row arrival.now)
              else self.old.entries;
        }) }
        ensures err { OnErr result (self.new ≡ self.old) }
    {
        let arrived = self.keys.insert_arrival(peer, key, arrival)?;
        if let Arrived::New = arrived {
            // Each peer has at most a row of each key, so its count stays below 2^64.
            let _keys = self.keys.len();
            self.counts[peer] += 1;
        }
        Ok(arrived)
    }

    /// Takes a row out.
    pub(crate) fn take(&mut self, hint: Option<Spot>, peer: usize, key: &Key) -> Option<Row>
        requires { peer < self.old.peers }
        ensures value { result ≡ lookup (is_at (spot_cmp (key.now, peer))) self.old.entries }
        ensures after { self.new ≡ record self.old
            { entries = remove_entry (is_at (spot_cmp (key.now, peer))) self.old.entries } }
    {
        let old = self.keys.take(hint, peer, key);
        if old.is_some() {
            self.counts[peer] -= 1;
        }
        old
    }

    /// Takes all rows of a key out, and says how many.
    pub(crate) fn clear_key(&mut self, hint: Option<Spot>, key: &Key) -> usize
        ensures after { self.new ≡ record self.old
            { entries = filter (λ e. not (same_key key.now e.0.0)) self.old.entries } }
        ensures value { result ≡ length (filter (λ e. same_key key.now e.0.0) self.old.entries) }
    {
        match self.keys.remove(hint, key) {
            Some(rows) => {
                let count = rows.len();
                count_down(&mut self.counts, &rows);
                drop(rows);
                count
            }
            None => 0,
        }
    }

    /// Takes all rows out.
    pub(crate) fn clear(&mut self)
        ensures { self.new ≡ record self.old { entries = [] } }
    {
        self.keys.clear();
        count_none(&mut self.counts);
    }

    /// A moment up to `t` by which few keys are looked at: so many, or those of one moment.
    pub(crate) fn few_by(&self, t: u64, most: usize) -> u64
        ensures { result ≤ t }
    {
        self.keys.few_by(t, most)
    }

    /// Takes the rows out that have ended at a moment. The keys that have none left are told with
    /// the position of the table, as far as there is memory for them.
    pub(crate) fn end_rows(&mut self, t: u64, table: usize, told: bool, gone: &mut Gone)
        ensures { self.new ≡ ended t self.old }
    {
        self.keys.end_rows(&mut self.counts, t, table, told, gone);
    }

    /// The rows of a key, by peer.
    pub(crate) fn of_key(&self, hint: Option<Spot>, key: &Key) -> OfKey<'_>
        ensures { result ≡ map (λ e. (e.0.1, e.1))
            (filter (λ e. same_key key.now e.0.0) self.now.entries) }
    {
        match self.keys.get(hint, key) {
            Some(rows) => rows.iter(),
            None => OfKey::none(),
        }
    }

    /// Each key once with its rows, in no order.
    pub(crate) fn each_key(&self) -> EachKey<'_>
        ensures { IsEachKey (λ key. map (λ e. (e.0.1, e.1))
            (filter (λ e. same_key key e.0.0) self.now.entries)) result }
    {
        self.keys.each_key()
    }

    /// All rows, by key, then by peer.
    pub(crate) fn by_key(&self) -> Result<ByKey<'_>, NoMemory>
        ensures { IfOk result (λ rows. rows ≡ self.now.entries) }
    {
        self.keys.by_key()
    }
}

// Counts no row at any peer.
fn count_none(counts: &mut [usize])
    ensures { counts.new ≡ replicate (length counts.old) 0 }
{
    for peer in 0..counts.len() {
        counts[peer] = 0;
    }
}

// Counts each of a key's rows one down at its peer.
fn count_down(counts: &mut [usize], rows: &KeyRows)
    requires { (peer : ℕ) → rows_at_peer peer rows.now ≤ slice_index counts.old peer }
    ensures { (peer : ℕ) → slice_index counts.new peer + rows_at_peer peer rows.now
        ≡ slice_index counts.old peer }
{
    for (peer, _) in rows.iter() {
        counts[peer] -= 1;
    }
}

ghost use Rattle.std.specs.Prelude.{◌≡◌, ◌≢◌, ◌<◌, [], length, count_by, IsOk, IsSome, IfNone};
ghost use Rattle.std.specs.Prelude.{IfOk, IfSome, OnOk, OnErr, Some, MatchBool, MatchOption};
ghost use Rattle.std.specs.Prelude.{is_some, if◌then◌else◌, map, true, ◌≤◌};
ghost use Rattle.std.specs.Option.{option_copied};
ghost use Rattle.agg_types.specs.declared.limits.TheConstants.{LAST_MOMENT};
ghost use Rattle.peer_rows.specs.Arriving.{HasCome, arrived_row, is_new};
ghost use Rattle.peer_rows.specs.Ends.{ended};
ghost use Rattle.peer_rows.specs.Walk.{IsEachKey};

use crate::ending::Gone;
use crate::table::Table;
use crate::{Arrival, Arrived, ByKey, EachKey, OfKey, Row, Spot};
use agg_types::{Key, NoMemory};
use place_index::Trace;
use std::alloc::Global;
use std::fmt;
use std::marker::Model;

/// The rows of a fleet: for each peer, table and key at most one.
///
/// Peers and tables are named by their positions. Contracts see the numbers of peers and tables,
/// and the rows as the list of the entries of a finite map, by table, then by key, then by peer.
pub struct Rows {
    peers: usize,
    tables: Vec<Table>,
    alloc: Global,
}

// By hand, so that what drops it elsewhere proves nothing of its parts.
impl Drop for Rows {
    fn drop(self) {
        let Rows {
            peers: _,
            tables: _,
            alloc: _,
        } = self;
    }
}

impl Model for Rows {
    ghost use Rattle.std.specs.Prelude.{length};
    ghost use Rattle.peer_rows.specs.Rows.{RowMap, placed, AreTables};

    ghost Value = { RowMap };

    ghost view = { λ rows. record {
      peers = rows.peers;
      tables = length rows.tables.items;
      entries =
          placed rows.tables.items;
    } };

    ghost invariant = { λ rows. AreTables rows.peers rows.tables.items };
}

impl fmt::Debug for Rows {
    fn fmt<W: fmt::Write>(&self, f: &mut fmt::Formatter<W>) -> fmt::Result {
        let tables = self.tables.len();
        f.debug_struct("Rows")
            .field("peers", &self.peers)
            .field("tables", &tables)
            .finish()
    }
}

impl Rows {
    ghost use Rattle.peer_rows.specs.Rows.{row_at, with_row, without_row, without_key};
    ghost use Rattle.peer_rows.specs.Rows.{rows_of, peers_of, used_in, in_table, of_table_key};
    ghost use Rattle.peer_rows.specs.Rows.{of_table_peer, living, without_table, AreInOrder};

    /// No rows, for these numbers of peers and of tables.
    pub fn new(alloc: Global, peers: usize, tables: usize) -> Result<Rows, NoMemory>
        ensures { IfOk result (λ rows. rows
            ≡ record { peers = peers; tables = tables; entries = [] }) }
    {
        let mut empty = Vec::new(alloc);
        for _table in 0..tables {
            empty.push(Table::new(alloc, peers)?)?;
        }
        Ok(Rows {
            peers,
            tables: empty,
            alloc,
        })
    }

    /// The row of a peer, table and key, if there is one. Takes no memory.
    pub fn get(&self, peer: usize, table: usize, key: &Key) -> Option<&Row>
        requires peer_in { peer < self.now.peers }
        requires table_in { table < self.now.tables }
        ensures value { option_copied result ≡ row_at self.now peer table key.now }
        ensures ordered { AreInOrder self.now.entries }
    {
        self.get_at(None, peer, table, key)
    }

    /// How many rows a peer holds of a table, in constant time. Takes no memory.
    pub fn count(&self, peer: usize, table: usize) -> usize
        requires peer_in { peer < self.now.peers }
        requires table_in { table < self.now.tables }
        ensures value { result ≡ count_by (λ e. of_table_peer table peer e.0) self.now.entries }
        ensures ordered { AreInOrder self.now.entries }
    {
        self.tables[table].count(peer)
    }

    /// How many keys of a table have a row, in constant time. Takes no memory.
    pub fn used(&self, table: usize) -> usize
        requires { table < self.now.tables }
        ensures { result ≡ used_in self.now table }
    {
        self.tables[table].used()
    }

    /// Puts a row in the place of the row that stood there, which comes back.
    ///
    /// Where there was one it is never refused. After `NoMemory` no row has changed.
    pub fn put(
        &mut self,
        peer: usize,
        table: usize,
        key: Key,
        row: Row,
    ) -> Result<Option<Row>, NoMemory>
        requires peer_in { peer < self.old.peers }
        requires table_in { table < self.old.tables }
        ensures ok { OnOk result (self.new ≡ with_row self.old peer table key row) }
        ensures old { IfOk result (λ old. old ≡ row_at self.old peer table key) }
        ensures held { IsSome (row_at self.old peer table key) → IsOk result }
        ensures err { OnErr result (self.new ≡ self.old) }
        ensures ordered { AreInOrder self.new.entries }
    {
        self.put_at(None, peer, table, &key, row)
    }

    /// Takes the row of a peer, table and key out, if there is one. Takes no memory.
    pub fn take(&mut self, peer: usize, table: usize, key: &Key) -> Option<Row>
        requires peer_in { peer < self.old.peers }
        requires table_in { table < self.old.tables }
        ensures value { result ≡ row_at self.old peer table key.now }
        ensures after { self.new ≡ without_row self.old peer table key.now }
        ensures ordered { AreInOrder self.new.entries }
    {
        self.take_at(None, peer, table, key)
    }

    /// Takes the rows of a table and key out, over all peers, and says how many. Takes no memory.
    pub fn clear_key(&mut self, table: usize, key: &Key) -> usize
        requires { table < self.old.tables }
        ensures after { self.new ≡ without_key self.old table key.now }
        ensures value { result
            ≡ count_by (λ e. of_table_key table key.now e.0) self.old.entries }
        ensures ordered { AreInOrder self.new.entries }
    {
        self.clear_key_at(None, table, key)
    }

    /// Takes all rows of a table out, in the time that its places take, and gives their memory
    /// back. Takes no memory.
    pub fn clear_table(&mut self, table: usize)
        requires { table < self.old.tables }
        ensures after { self.new ≡ without_table self.old table }
        ensures ordered { AreInOrder self.new.entries }
    {
        self.tables[table].clear();
    }

    /// Lends the rows of a table, each once, by key, then by peer, in one walk, in an order that is
    /// made now: it takes memory for the keys of the table.
    pub fn by_key(&self, table: usize) -> Result<ByKey<'_>, NoMemory>
        requires { table < self.now.tables }
        ensures value { IfOk result (λ rows. rows ≡ rows_of self.now table) }
        ensures ordered { AreInOrder self.now.entries }
    {
        let rows = self.tables[table].by_key()?;
        Ok(rows)
    }

    /// Lends the keys of a table that have a row, each once with its rows, in no order, in one walk
    /// of the places as they lie. Takes no memory.
    pub fn each_key(&self, table: usize) -> EachKey<'_>
        requires { table < self.now.tables }
        ensures value { IsEachKey (peers_of self.now table) result }
        ensures ordered { AreInOrder self.now.entries }
    {
        self.tables[table].each_key()
    }

    /// Lends the rows of a table and key over all peers, by peer: one search, and then the rows
    /// that there are. Takes no memory.
    pub fn of_key(&self, table: usize, key: &Key) -> OfKey<'_>
        requires { table < self.now.tables }
        ensures value { result ≡ peers_of self.now table key.now }
        ensures ordered { AreInOrder self.now.entries }
    {
        self.of_key_at(None, table, key)
    }

    /// Takes the rows that have ended at a moment out: what is due then is looked at, and no more.
    /// Answers, if they are to be told, the keys that have no row left, each with the position of
    /// its table, as far as there is memory for them. Takes no other memory.
    pub fn end_rows(&mut self, t: u64, told: bool) -> Vec<(usize, Key)>
        ensures after { self.new ≡ living self.old t }
        ensures ordered { AreInOrder self.new.entries }
    {
        let mut gone = Vec::new(self.alloc);
        end_tables(&mut self.tables, t, told, &mut gone);
        gone
    }

    /// A moment up to `t` by which `end_rows` looks at few keys of each table: at most so many, or
    /// at those of a single moment. Takes no memory.
    ///
    /// Who ends rows in portions asks for the next one's moment. No clause counts them.
    pub fn few_by(&self, t: u64, most: usize) -> u64
        ensures { result ≤ t }
    {
        let mut by = t;
        for table in self.tables.as_slice() {
            by = table.few_by(by, most);
        }
        by
    }

    // ---- with a hint at where the rows of a key lie

    /// Where the rows of a table and key lie, if it has any. Nothing is promised of it.
    pub fn spot_near(&self, hint: Option<Spot>, table: usize, key: &Key) -> Option<Spot>
        requires { table < self.now.tables }
    {
        self.tables[table].spot_near(hint, key)
    }

    /// Where a key of a table is looked for, by its hash alone: reads no memory but the key's.
    ///
    /// Who puts several rows asks for the traces of all first, then touches what each leads to,
    /// then asks for the guesses, confirms each, and then puts: so their waits for memory overlap.
    /// Nothing is promised of them.
    #[inline]
    pub fn trace(&self, table: usize, key: &Key) -> Trace
        requires { table < self.now.tables }
    {
        self.tables[table].trace(key)
    }

    /// The trace with a first look at what it leads to.
    #[inline]
    pub fn touch(&self, table: usize, trace: Trace) -> Trace
        requires { table < self.now.tables }
    {
        self.tables[table].touch(trace)
    }

    /// Where the rows of a table and a trace's key may lie, without a look there. Nothing is
    /// promised of it.
    #[inline]
    pub fn guess(&self, table: usize, trace: Trace) -> Option<Spot>
        requires { table < self.now.tables }
    {
        self.tables[table].guess(trace)
    }

    /// The spot, if the rows of the table and key lie there. Nothing is promised of it.
    #[inline]
    pub fn confirm(&self, spot: Spot, table: usize, key: &Key) -> Option<Spot>
        requires { table < self.now.tables }
    {
        self.tables[table].confirm(spot, key)
    }

    /// The spot with a first look at where a peer's row of the table lies there. Nothing is
    /// promised of it.
    #[inline]
    pub fn touch_row(&self, spot: Spot, table: usize, peer: usize) -> Option<Spot>
        requires { table < self.now.tables }
    {
        self.tables[table].touch_row(spot, peer)
    }

    /// How many rows a table has, over all peers, in a time by their number. Nothing is promised of
    /// it.
    pub fn count_all(&self, table: usize) -> usize
        requires { table < self.now.tables }
    {
        self.tables[table].count_all()
    }

    /// What `get` answers, whatever the hint: one that doesn't fit costs a search.
    pub fn get_at(&self, hint: Option<Spot>, peer: usize, table: usize, key: &Key) -> Option<&Row>
        requires peer_in { peer < self.now.peers }
        requires table_in { table < self.now.tables }
        ensures value { option_copied result ≡ row_at self.now peer table key.now }
        ensures ordered { AreInOrder self.now.entries }
    {
        self.tables[table].get(hint, peer, key)
    }

    /// What `put` does and answers, whatever the hint. The key is copied only where it has no row
    /// yet.
    pub fn put_at(
        &mut self,
        hint: Option<Spot>,
        peer: usize,
        table: usize,
        key: &Key,
        row: Row,
    ) -> Result<Option<Row>, NoMemory>
        requires peer_in { peer < self.old.peers }
        requires table_in { table < self.old.tables }
        ensures ok { OnOk result (self.new ≡ with_row self.old peer table key.now row) }
        ensures old { IfOk result (λ old. old ≡ row_at self.old peer table key.now) }
        ensures held { IsSome (row_at self.old peer table key.now) → IsOk result }
        ensures err { OnErr result (self.new ≡ self.old) }
        ensures ordered { AreInOrder self.new.entries }
    {
        self.tables[table].put(hint, peer, key, row)
    }

    /// Exchanges the row of a peer, table and key for this one, if there is one, whatever the hint.
    /// Takes no memory.
    #[inline(always)]
    pub fn exchange_at(
        &mut self,
        hint: Option<Spot>,
        peer: usize,
        table: usize,
        key: &Key,
        row: &mut Row,
    ) -> bool
        requires peer_in { peer < self.old.peers }
        requires table_in { table < self.old.tables }
        ensures found { result ≡ is_some (row_at self.old peer table key.now) }
        ensures rows { self.new
            ≡ (if result then with_row self.old peer table key.now row.old else self.old) }
        ensures row { MatchBool result (row_at self.old peer table key.now ≡ Some row.new)
            (row.new ≡ row.old) }
        ensures ordered { AreInOrder self.new.entries }
    {
        self.tables[table].exchange(hint, peer, key, row)
    }

    /// Puts the row that cells make which arrive, where the peer holds one of the table and key,
    /// whatever the hint. Takes no memory. `false` says that nothing has changed: there is none, or
    /// the cells can't be laid there (`Row::arrive`).
    #[inline(always)]
    pub fn arrive_at(
        &mut self,
        hint: Option<Spot>,
        peer: usize,
        table: usize,
        key: &Key,
        arrival: &Arrival<'_>,
    ) -> bool
        requires peer_in { peer < self.old.peers }
        requires table_in { table < self.old.tables }
        requires in_range { arrival.now.t ≤ LAST_MOMENT }
        ensures held { result ≡ true → IsSome (row_at self.old peer table key.now) }
        ensures rows { MatchBool result
            (self.new ≡ with_row self.old peer table key.now (arrived_row arrival.now))
            (self.new ≡ self.old) }
        ensures ordered { AreInOrder self.new.entries }
    {
        self.tables[table].arrive(hint, peer, key, arrival)
    }

    /// Puts the first row of a key; the row is left blank then. Where the key has rows, nothing
    /// changes, and where they lie comes back.
    pub fn insert_first(
        &mut self,
        peer: usize,
        table: usize,
        key: &Key,
        row: &mut Row,
    ) -> Result<Option<Spot>, NoMemory>
        requires peer_in { peer < self.old.peers }
        requires table_in { table < self.old.tables }
        ensures new { IfOk result (λ held. IfNone held (peers_of self.old table key.now ≡ [])) }
        ensures held { IfOk result
            (λ held. IfSome held (λ _. peers_of self.old table key.now ≢ [])) }
        ensures ok { IfOk result (λ held. MatchOption held
            (self.new ≡ with_row self.old peer table key.now row.old)
            (λ _. (self.new ≡ self.old) × (row.new ≡ row.old))) }
        ensures err { OnErr result (self.new ≡ self.old) }
        ensures ordered { AreInOrder self.new.entries }
    {
        self.tables[table].insert_first(peer, key, row)
    }

    /// Puts the first row of a key, which cells make that arrive. Where the key has rows, nothing
    /// changes, and where they lie comes back.
    pub fn insert_arrival(
        &mut self,
        peer: usize,
        table: usize,
        key: &Key,
        arrival: &Arrival<'_>,
    ) -> Result<Arrived, NoMemory>
        requires peer_in { peer < self.old.peers }
        requires table_in { table < self.old.tables }
        requires in_range { arrival.now.t ≤ LAST_MOMENT }
        ensures came { IfOk result (λ arrived. HasCome arrived (peers_of self.old table key.now)) }
        ensures ok { IfOk result (λ arrived. self.new ≡ (if is_new arrived
            then with_row self.old peer table key.now (arrived_row arrival.now)
            else self.old)) }
        ensures err { OnErr result (self.new ≡ self.old) }
        ensures ordered { AreInOrder self.new.entries }
    {
        self.tables[table].insert_arrival(peer, key, arrival)
    }

    /// What `take` does and answers, whatever the hint.
    pub fn take_at(
        &mut self,
        hint: Option<Spot>,
        peer: usize,
        table: usize,
        key: &Key,
    ) -> Option<Row>
        requires peer_in { peer < self.old.peers }
        requires table_in { table < self.old.tables }
        ensures value { result ≡ row_at self.old peer table key.now }
        ensures after { self.new ≡ without_row self.old peer table key.now }
        ensures ordered { AreInOrder self.new.entries }
    {
        self.tables[table].take(hint, peer, key)
    }

    /// What `clear_key` does and answers, whatever the hint.
    pub fn clear_key_at(&mut self, hint: Option<Spot>, table: usize, key: &Key) -> usize
        requires { table < self.old.tables }
        ensures after { self.new ≡ without_key self.old table key.now }
        ensures value { result
            ≡ count_by (λ e. of_table_key table key.now e.0) self.old.entries }
        ensures ordered { AreInOrder self.new.entries }
    {
        self.tables[table].clear_key(hint, key)
    }

    /// What `of_key` lends, whatever the hint.
    pub fn of_key_at(&self, hint: Option<Spot>, table: usize, key: &Key) -> OfKey<'_>
        requires { table < self.now.tables }
        ensures value { result ≡ peers_of self.now table key.now }
        ensures ordered { AreInOrder self.now.entries }
    {
        self.tables[table].of_key(hint, key)
    }
}

// Takes the rows that have ended at a moment out of tables.
fn end_tables(tables: &mut Vec<Table>, t: u64, told: bool, gone: &mut Gone)
    ensures { tables.new.items ≡ map (ended t) tables.old.items }
{
    for table in 0..tables.len() {
        tables[table].end_rows(t, table, told, gone);
    }
}

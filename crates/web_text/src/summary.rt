ghost use Rattle.std.specs.Prelude.{◌≡◌};
ghost use Rattle.web_text.specs.Standing.{no_rows, rows_of_peer, rows_together, with_rows};

use agg_types::{Cond, Items, Key, Name};

/// A standing filter as a look found it.
#[derive(Debug, Drop)]
pub struct FilterSum {
    /// What it is called.
    pub name: Name,
    /// Its table, by its place in the configuration.
    pub table: usize,
    /// What has to hold of a key's sums.
    pub conds: Items<Cond>,
    /// How many keys it holds.
    pub keys: usize,
    /// When its set changes by the clock alone, in ms of the book's clock.
    pub next: Option<u64>,
    /// The first of its keys.
    pub first: Vec<Key>,
}

/// A ranked list as a look found it.
#[derive(Debug, Drop)]
pub struct RankSum {
    /// What it is called.
    pub name: Name,
    /// Its table, by its place in the configuration.
    pub table: usize,
    /// The name of its column.
    pub column: &'static str,
    /// Its first keys with their values.
    pub first: Vec<(Key, u128)>,
}

/// What is told of the rows that a peer holds.
#[derive(Clone, Copy, Debug, PartialEq, Eq)]
pub struct PeerRows {
    /// How many it holds.
    pub rows: u64,
    /// How many updates of new keys a full table didn't take.
    pub dropped: u64,
}

impl PeerRows {
    /// Nothing.
    pub fn none() -> PeerRows
        ensures { result ≡ no_rows }
    {
        PeerRows {
            rows: 0,
            dropped: 0,
        }
    }

    /// The sum with another one's. Counts stay at their greatest number.
    pub fn add(&mut self, other: PeerRows)
        ensures { self.new ≡ with_rows self.old other }
    {
        self.rows = self.rows.saturating_add(other.rows);
        self.dropped = self.dropped.saturating_add(other.dropped);
    }
}

/// What the figures and the page need of a book that was looked at.
#[derive(Debug, Drop)]
pub struct Summary {
    /// How many events it answers for: of two books of one collector the one with more is later.
    pub events: u64,
    /// The moment of the book's clock, in ms.
    pub moment: u64,
    /// When it was looked at, in ms after the start. A look is shared, so that may be a while ago.
    pub looked: u64,
    /// How many keys each table has.
    pub tables: Vec<u64>,
    /// What each peer holds of each table: by peer, then by table, each in the configuration's
    /// order.
    pub peers: Vec<Vec<PeerRows>>,
    /// The standing filters, in the book's order.
    pub filters: Vec<FilterSum>,
    /// The ranked lists, in the configuration's order.
    pub ranks: Vec<RankSum>,
}

impl Summary {
    /// What a peer holds of all tables, by its place in the configuration; nothing where there is
    /// no such peer.
    pub fn of_peer(&self, peer: usize) -> PeerRows
        ensures { result ≡ rows_of_peer self.now peer }
    {
        match self.peers.get(peer) {
            None => PeerRows::none(),
            Some(tables) => together(tables.as_slice()),
        }
    }
}

// What is held of tables, together.
fn together(tables: &[PeerRows]) -> PeerRows
    ensures { result ≡ rows_together tables.now }
{
    let mut held = PeerRows::none();
    for table in tables {
        held.add(*table);
    }
    held
}

//! How many updates weren't taken for want of room.

use crate::store::Store;
use agg_types::{LentWhat, NoMemory, What};
use std::alloc::Global;

/// How many updates of new keys were dropped, of each table and each peer, since there was no room
/// for a further row. No state says it: it is counted beside what contracts see of a book.
#[derive(Drop)]
pub struct Drops {
    // of each table, by peer
    counts: Vec<Vec<u64>>,
}

impl Drops {
    /// Nothing was dropped, for as many peers and tables as rows are of.
    pub fn new(alloc: Global, rows: &Store) -> Result<Drops, NoMemory> {
        let mut counts = Vec::new(alloc);
        for _ in 0..rows.size.tables {
            let mut peers = Vec::new(alloc);
            for _ in 0..rows.size.peers {
                peers.push(0)?;
            }
            counts.push(peers)?;
        }
        Ok(Drops { counts })
    }

    /// An event was taken: whether it is an update that was dropped. Takes no memory.
    #[inline]
    pub fn note(&mut self, what: LentWhat<'_>, dropped: bool) {
        if dropped {
            self.count_one(what);
        }
    }

    // One more update was dropped. The count stays at its greatest number.
    #[inline(never)]
    fn count_one(&mut self, what: LentWhat<'_>) {
        let (table, peer) = match what {
            LentWhat::Put { peer, table, .. } => (table, peer),
            LentWhat::Other(What::Put { peer, table, .. }) => (*table, *peer),
            LentWhat::Other(_) => return,
        };
        let Some(peers) = self.counts.get_mut(table) else {
            return;
        };
        if let Some(count) = peers.get_mut(peer) {
            *count = count.saturating_add(1);
        }
    }

    /// How many updates of a peer were dropped.
    pub fn of(&self, table: usize, peer: usize) -> u64 {
        match self.counts.get(table) {
            None => 0,
            Some(peers) => match peers.get(peer) {
                None => 0,
                Some(count) => *count,
            },
        }
    }
}

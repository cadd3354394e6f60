//! The tables that a connection of a peer defined.

use crate::columns::Lacking;
use crate::verdict::Verdict;
use agg_types::NoMemory;
use agg_types::limits::MOST_FOLLOWED;
use std::alloc::Global;

/// A table that a peer defined, and what comes of it.
#[derive(Drop)]
pub struct DefinedTable {
    /// Its name, as the peer has it.
    pub name: Vec<u8>,
    pub verdict: Verdict,
    /// The configured columns that it doesn't bring, where it is followed.
    pub lacks: Vec<Lacking>,
}

impl DefinedTable {
    /// The same again.
    pub fn duplicate(&self, alloc: Global) -> Result<DefinedTable, NoMemory> {
        Ok(DefinedTable {
            name: Vec::from_slice(alloc, self.name.as_slice())?,
            verdict: self.verdict,
            lacks: Vec::from_slice(alloc, self.lacks.as_slice())?,
        })
    }
}

/// The tables that a peer's present or last connection defined, at most 256 of them.
#[derive(Drop)]
pub struct DefinedTables {
    tables: Vec<DefinedTable>,
}

impl DefinedTables {
    /// None. Takes no memory.
    pub fn new(alloc: Global) -> DefinedTables {
        DefinedTables {
            tables: Vec::new(alloc),
        }
    }

    /// A new connection begins.
    pub fn clear(&mut self) {
        self.tables.clear();
    }

    /// Keeps a table, or what comes of one that is kept: whether that is news. As many are kept as
    /// a session ever follows; what is more, or finds no memory, is no news.
    pub fn define(&mut self, table: DefinedTable) -> bool {
        let is_same = |kept: &DefinedTable| kept.name == table.name;
        if let Some(place) = self.tables.iter().position(is_same) {
            return self.redefine(place, table);
        }
        self.tables.len() < MOST_FOLLOWED && self.tables.push(table).is_ok()
    }

    // Keeps what comes of a table at a place: whether that is news.
    fn redefine(&mut self, place: usize, table: DefinedTable) -> bool {
        let Some(kept) = self.tables.get_mut(place) else {
            return false;
        };
        let is_news = kept.verdict != table.verdict;
        *kept = table;
        is_news
    }

    /// How many of them are passed over, though the peer may mean them to be followed.
    pub fn count_unknown(&self) -> usize {
        let mut unknown = 0usize;
        for table in self.tables.as_slice() {
            if table.verdict.is_unknown() {
                unknown = unknown.saturating_add(1);
            }
        }
        unknown
    }

    /// The table at a place, in the order of their first definitions.
    pub fn get(&self, place: usize) -> Option<&DefinedTable> {
        self.tables.get(place)
    }
}

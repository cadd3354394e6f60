//! What a session taught of a table.

ghost use Rattle.std.specs.Prelude.{◌≡◌, ◌≤◌, [], length, nat_lt, take, IfOk};
ghost use Rattle.learned_rows.specs.declared.table.TheConstants.{SAMPLE};

use agg_types::{Key, NoMemory};
use std::alloc::Global;

/// Of how many learned rows of a session and a table the keys are kept at most.
pub const SAMPLE: usize = 1000;

/// What a session taught of a table.
#[derive(Drop)]
pub(crate) struct TableTaught {
    /// How many updates of own rows.
    pub own: u64,
    /// How many of rows that it had learned.
    pub learned: u64,
    /// Of how many of the latter the keys are.
    pub heard: u64,
    /// These keys, each once.
    pub keys: Vec<Key>,
    /// Whether it was told that another session teaches the same rows.
    pub is_told: bool,
}

impl TableTaught {
    /// Nothing. Takes no memory.
    pub fn nothing(alloc: Global) -> TableTaught
        ensures { result.keys.items ≡ [] }
    {
        TableTaught {
            own: 0,
            learned: 0,
            heard: 0,
            keys: Vec::new(alloc),
            is_told: false,
        }
    }

    /// Whether more rows came that the session had learned than own ones.
    pub fn is_mostly_learned(&self) -> bool
        ensures { result ≡ nat_lt self.now.own self.now.learned }
    {
        self.own < self.learned
    }

    /// So many updates more came.
    pub fn count(&mut self, own: u64, learned: u64)
        ensures { self.new.keys ≡ self.old.keys }
    {
        self.own = self.own.saturating_add(own);
        self.learned = self.learned.saturating_add(learned);
    }

    /// A row of this key came that the session had learned. It counts for nothing behind the first
    /// 1,000, and where memory is lacking.
    pub fn hear(&mut self, alloc: Global, key: &Key) {
        if self.heard >= SAMPLE as u64 {
            return;
        }
        if self.has(key) || self.keep(alloc, key).is_ok() {
            self.heard = self.heard.saturating_add(1);
        }
    }

    // Whether a key is kept.
    fn has(&self, key: &Key) -> bool {
        let keys = self.keys.as_slice();
        keys.iter().any(|kept| kept.as_slice() == key.as_slice())
    }

    // Keeps a key behind the others.
    fn keep(&mut self, alloc: Global, key: &Key) -> Result<(), NoMemory> {
        self.keys.push(key.duplicate(alloc)?)?;
        Ok(())
    }
}

/// The first 1,000 of some keys.
#[tactic(auto, using(std::proofs::lemmas::List::take_min))]
pub fn sample_of(alloc: Global, keys: &[Key]) -> Result<Vec<Key>, NoMemory>
    ensures first { IfOk result (λ sample. sample.items ≡ take SAMPLE keys.now) }
    ensures few { IfOk result (λ sample. length sample.items ≤ SAMPLE) }
{
    copies_of(alloc, &keys[..SAMPLE.min(keys.len())])
}

fn copies_of(alloc: Global, keys: &[Key]) -> Result<Vec<Key>, NoMemory>
    ensures { IfOk result (λ copies. copies.items ≡ keys.now) }
{
    let mut copies = Vec::new(alloc);
    for key in keys {
        copies.push(key.duplicate(alloc)?)?;
    }
    Ok(copies)
}

//! What a turn has taken down of a table.

ghost use Rattle.std.specs.Prelude.{◌≡◌, ◌++◌, ◌∷◌, [], IfOk, OnOk};
ghost use Rattle.pushed_keys.specs.Passed.{IsDone};
ghost use Rattle.pushed_keys.specs.Stands.{shown};
ghost use Rattle.pushed_keys.specs.Turns.{key_change, key_mark, last_after};

use crate::change::{Turn, change_of, put_after};
use crate::changes::Changes;
use crate::marks::Packing;
use crate::stands::Standing;
use crate::{Pushed, ToldTable, UnsaidTable};
use agg_types::NoMemory;
use std::alloc::Global;

// How many update ids there are.
const IDS: u64 = 4_294_967_296;

/// What a turn has taken down of a table: the changes that it will write, and the marks that it
/// keeps.
#[derive(Drop)]
pub struct Done {
    pub changes: Changes,
    pub kept: Packing,
}

impl Done {
    /// Nothing. Takes no memory.
    pub fn new(alloc: Global) -> Done
        ensures { result ≡ record { changes = []; kept = [] } }
    {
        Done {
            changes: Changes::new(alloc),
            kept: Packing::new(alloc),
        }
    }

    /// Takes down a key.
    pub fn tell(
        &mut self,
        turn: Turn,
        pushed: &Pushed,
        standing: Standing<'_>,
    ) -> Result<(), NoMemory>
        ensures { OnOk result
            (IsDone pushed.now turn self.old (shown standing.entry ∷ []) self.new) }
    {
        say(&mut self.changes, turn, pushed, standing)?;
        keep(&mut self.kept, turn, pushed, standing)
    }

    /// What is to be written of the table, behind the update with this id, and what is told of it
    /// behind that.
    pub fn finish(self, last: u32) -> Result<(UnsaidTable, ToldTable), NoMemory>
        ensures unsaid { IfOk result (λ tables. tables.0
            ≡ record { last = last; changes = self.changes }) }
        ensures told { IfOk result (λ tables. tables.1
            ≡ record { last = last_after last self.changes; marks = self.kept }) }
    {
        let Done { changes, kept } = self;
        let marks = kept.finish()?;
        let told = ToldTable {
            last: last_behind(last, &changes),
            marks,
        };
        Ok((UnsaidTable { last, changes }, told))
    }
}

// The id of the last update behind these changes.
fn last_behind(last: u32, changes: &Changes) -> u32
    ensures { result ≡ last_after last changes.now }
{
    let many = changes.len() as u64 % IDS;
    ((u64::from(last) + many) % IDS) as u32
}

/// Takes down what is written of a key, if anything is.
pub fn say(
    changes: &mut Changes,
    turn: Turn,
    pushed: &Pushed,
    standing: Standing<'_>,
) -> Result<(), NoMemory>
    ensures { OnOk result (changes.new
        ≡ changes.old ++ key_change pushed.now turn (shown standing.entry)) }
{
    let Some(change) = change_of(pushed, turn, standing.is_in, standing.put) else {
        return Ok(());
    };
    changes.push(standing.key, change)
}

// Keeps the mark of a key that is told behind the turn.
fn keep(
    marks: &mut Packing,
    turn: Turn,
    pushed: &Pushed,
    standing: Standing<'_>,
) -> Result<(), NoMemory>
    ensures { OnOk result (marks.new
        ≡ marks.old ++ key_mark pushed.now turn (shown standing.entry)) }
{
    let Some(put) = put_after(pushed, turn, standing.is_in, standing.put) else {
        return Ok(());
    };
    marks.push(standing.key, put, standing.is_in)
}

//! What a round tells.

ghost use Rattle.std.specs.Prelude.{◌≡◌, ◌≤◌, ◌++◌, [], length, OnOk};
ghost use Rattle.logged_keys.specs.Telling.{AreShared, IsShared, left_of, told_of};
ghost use Rattle.logged_keys.specs.declared.round.TheConstants.{MOST_LINES};

use crate::found::Found;
use agg_types::NoMemory;
use hub::Change;
use std::alloc::Global;

/// How many changes a round tells at most, of all filters together.
pub const MOST_LINES: usize = 100;

/// A change of the set of the filter at a place, which is to be told.
#[derive(Clone, Copy)]
pub struct Told<'l> {
    pub filter: usize,
    pub change: &'l Change,
}

/// How many changes of the filter at a place aren't told; none where that isn't known.
#[derive(Clone, Copy)]
pub struct LeftOut {
    pub filter: usize,
    pub count: Option<u64>,
}

/// The changes that are told in a round, and of which filters some aren't.
#[derive(Drop)]
pub struct Round<'l> {
    pub told: Vec<Told<'l>>,
    pub left_out: Vec<LeftOut>,
}

impl<'l> Round<'l> {
    /// Nothing is told. Takes no memory.
    pub(crate) fn new(alloc: Global) -> Round<'l>
        ensures told { result.told.items ≡ [] }
        ensures left { result.left_out.items ≡ [] }
    {
        Round {
            told: Vec::new(alloc),
            left_out: Vec::new(alloc),
        }
    }

    /// Tells the first changes of each filter: its part, and of what is spare as much as it needs.
    pub(crate) fn add_each(
        &mut self,
        found: &[Found<'l>],
        part: usize,
        spare: usize,
    ) -> Result<(), NoMemory>
        requires { length self.old.told.items ≤ MOST_LINES }
        ensures few { OnOk result (length self.new.told.items ≤ MOST_LINES) }
        ensures shared { OnOk result (AreShared found.now self.old self.new) }
    {
        match found {
            [] => Ok(()),
            [first, others @ ..] => {
                let wanted = first.count();
                let base = wanted.min(part);
                let more = (wanted - base).min(spare);
                self.add(first, base.saturating_add(more))?;
                self.add_each(others, part, spare - more)
            }
        }
    }

    // Tells the first changes of a filter, this many at most, and counts the others.
    fn add(&mut self, found: &Found<'l>, most: usize) -> Result<(), NoMemory>
        requires { length self.old.told.items ≤ MOST_LINES }
        ensures few { OnOk result (length self.new.told.items ≤ MOST_LINES) }
        ensures shared { OnOk result (IsShared found.now self.old self.new) }
    {
        let filter = found.filter;
        let Some(changes) = &found.changes else {
            self.left_out.push(LeftOut {
                filter,
                count: None,
            })?;
            return Ok(());
        };
        let share = most.min(changes.len()).min(MOST_LINES - self.told.len());
        self.tell(filter, &changes[..share])?;
        self.leave_out(filter, changes.len() - share)
    }

    fn tell(&mut self, filter: usize, changes: &[&'l Change]) -> Result<(), NoMemory>
        ensures told { OnOk result (self.new.told.items
            ≡ self.old.told.items ++ told_of filter changes.now) }
        ensures left { self.new.left_out ≡ self.old.left_out }
    {
        for change in changes {
            self.told.push(Told {
                filter,
                change: *change,
            })?;
        }
        Ok(())
    }

    fn leave_out(&mut self, filter: usize, count: usize) -> Result<(), NoMemory>
        ensures left { OnOk result (self.new.left_out.items
            ≡ self.old.left_out.items ++ left_of filter count) }
        ensures told { self.new.told ≡ self.old.told }
    {
        if count > 0 {
            self.left_out.push(LeftOut {
                filter,
                count: Some(count as u64),
            })?;
        }
        Ok(())
    }
}

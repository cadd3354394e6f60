//! The filters whose keys a log tells, round by round.

ghost use Rattle.std.specs.Prelude.{◌≡◌, ◌≤◌, ◌++◌, length, true, IfOk, OnErr, OnOk};
ghost use Rattle.hub.specs.Trailed.{trail_to};
ghost use Rattle.logged_keys.specs.Telling.{AreFound, IsRound, logged_place};
ghost use Rattle.logged_keys.specs.Telling.{logged_places};
ghost use Rattle.logged_keys.specs.declared.round.TheConstants.{MOST_LINES};

use crate::found::Found;
use crate::round::{MOST_LINES, Round};
use agg_types::{Config, Declared, Filter, Logged, NoMemory};
use hub::Look;
use std::alloc::Global;

/// The filters of a configuration's `log` lines, and up to which list of events their changes were
/// told.
#[derive(Drop)]
pub struct LoggedKeys {
    alloc: Global,
    filters: Vec<usize>,
    seen: u64,
}

impl LoggedKeys {
    /// Those of a configuration. Nothing of them was told yet: the first round tells from the first
    /// event on.
    pub fn new(alloc: Global, config: &Config) -> Result<LoggedKeys, NoMemory>
        ensures seen { IfOk result (λ keys. keys.seen ≡ 0) }
        ensures filters { IfOk result (λ keys. keys.filters.items
            ≡ logged_places config.now.filters config.now.logs) }
    {
        let mut filters = Vec::new(alloc);
        for logged in config.logs.as_slice() {
            add(&config.filters, logged, &mut filters)?;
        }
        Ok(LoggedKeys {
            alloc,
            filters,
            seen: 0,
        })
    }

    /// What is told of a look: of each filter the changes behind the list up to which they were
    /// told, an equal part of the lines each, and then what others don't need. Where an allocation
    /// fails nothing is told, and the next round tells it.
    pub fn round<'l>(&mut self, look: &'l Look<'_>) -> Result<Round<'l>, NoMemory>
        requires { look.now.lens.now.inside ≡ true }
        ensures few { IfOk result (λ round. length round.told.items ≤ MOST_LINES) }
        ensures told { IfOk result (IsRound (trail_to look.now.lens.now.seen) self.old) }
        ensures filters { self.new.filters ≡ self.old.filters }
        ensures on { OnOk result (self.new.seen ≡ length look.now.lens.now.seen.events) }
        ensures err { OnErr result (self.new.seen ≡ self.old.seen) }
    {
        let round = self.tell(look)?;
        self.seen = look.receipt().len();
        Ok(round)
    }

    // What is told of a look.
    fn tell<'l>(&self, look: &'l Look<'_>) -> Result<Round<'l>, NoMemory>
        requires { look.now.lens.now.inside ≡ true }
        ensures few { IfOk result (λ round. length round.told.items ≤ MOST_LINES) }
        ensures told { IfOk result (IsRound (trail_to look.now.lens.now.seen) self.now) }
    {
        let mut found = Vec::new(self.alloc);
        find_each(look, self.filters.as_slice(), self.seen, &mut found)?;
        let mut round = Round::new(self.alloc);
        let part = part_of(found.len());
        let spare = spare_of(found.as_slice(), part);
        round.add_each(found.as_slice(), part, spare)?;
        Ok(round)
    }
}

// Adds the place of a logged filter; none where it isn't there, which no sound configuration has.
fn add(filters: &Declared<Filter>, logged: &Logged, places: &mut Vec<usize>) -> Result<(), NoMemory>
    ensures { OnOk result (places.new.items
        ≡ places.old.items ++ logged_place filters.now logged.now) }
{
    if let Some(place) = filters.position(logged.filter.as_slice()) {
        places.push(place)?;
    }
    Ok(())
}

// Finds the changes of each filter behind a list of so many events, behind what was found before.
fn find_each<'l>(
    look: &'l Look<'_>,
    filters: &[usize],
    seen: u64,
    found: &mut Vec<Found<'l>>,
) -> Result<(), NoMemory>
    requires { look.now.lens.now.inside ≡ true }
    ensures { OnOk result (AreFound (trail_to look.now.lens.now.seen) seen filters.now
        found.old.items found.new.items) }
{
    match filters {
        [] => Ok(()),
        [first, others @ ..] => {
            found.push(Found::behind(look, *first, seen))?;
            find_each(look, others, seen, found)
        }
    }
}

// The lines that each of so many filters may have in any case.
fn part_of(filters: usize) -> usize {
    if filters == 0 {
        return 0;
    }
    MOST_LINES / filters
}

// How many lines are left, where each filter has its part or what it needs of it.
fn spare_of(found: &[Found<'_>], part: usize) -> usize {
    let mut spare = MOST_LINES;
    for one in found {
        spare = spare.saturating_sub(one.count().min(part));
    }
    spare
}

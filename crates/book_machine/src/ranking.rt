//! The keys of a table by their values of a column.
//!
//! A list is found by bounds where it looks at few keys that way, and else in one walk of the
//! table's rows as they lie. Where nearly all values have as many digits, the bounds would lead to
//! nearly all keys, each of which is searched.

ghost use Rattle.std.specs.Prelude.{◌≡◌, ◌<◌, ◌≤◌, length, map, take, IfOk};
ghost use Rattle.std.specs.Iterator.{at_most};
ghost use Rattle.std.specs.Map.Iter.{TakesFirst};
ghost use Rattle.agg_types.specs.declared.limits.TheConstants.{LONGEST_RANK};
ghost use Rattle.fleet_model.specs.Ranking.{rank_of, ranked, ranking};
ghost use Rattle.fleet_model.specs.Sound.{IsSound};
ghost use Rattle.book_frame.specs.Lent.{key_and_value};
ghost use Rattle.book_machine.specs.Ranks.{best_after};

use crate::machine::Machine;
use agg_types::{Col, Key, NoMemory};
use book_frame::standing::{cols_of, rank_at};
use book_rows::values::worth;
use peer_rows::EachKey;
use ranked::{Best, Wanted};
use std::alloc::Global;
use std::marker::Model;
use std::vec::IntoIter;

// A list by bounds is given up once it has looked at this many keys, and one of so many.
const LOOKS: usize = 1000;

const LOOKS_OF: usize = 32;

/// How the keys of a ranked list are found.
#[derive(Drop)]
pub(crate) enum Found<'a> {
    /// By bounds on the values of keys, as they are lent.
    ByBounds(ranked::Ranked<'a, Machine>),
    /// They were found in a walk over so many keys.
    ByPlace(IntoIter<(&'a Key, u128)>, usize),
}

/// Lends the keys of a ranked list, each with its value, the larger value first and of equal ones
/// the smaller key. Takes no memory.
///
/// Contracts see the list of what it has left.
pub struct Ranked<'a> {
    found: Found<'a>,
}

// By hand, so that what drops it elsewhere proves nothing of its parts.
impl Drop for Ranked<'_> {
    fn drop(self) {
        let Ranked { found: _ } = self;
    }
}

impl<'a> Model for Ranked<'a> {
    ghost use Rattle.std.specs.Prelude.{List, ℕ};
    ghost use Rattle.book_machine.specs.Ranks.{left_of};

    ghost Value = { List (List ℕ × ℕ) };

    ghost view = { λ ranked. left_of ranked.found };
}

impl<'a> Ranked<'a> {
    /// At how many keys it has looked so far. Where bounds lead to few keys, these are at most the
    /// keys of the table with a bound of at least the value that it gave last, and else all keys.
    pub fn walked(&self) -> usize {
        match &self.found {
            Found::ByBounds(list) => list.walked(),
            Found::ByPlace(_, walked) => *walked,
        }
    }
}

impl<'a> Iterator for Ranked<'a> {
    type Item = (&'a Key, u128);

    ghost next_gives = { TakesFirst key_and_value };

    ghost remaining = { λ entries. at_most (length entries) };

    fn next(&mut self) -> Option<(&'a Key, u128)> {
        match &mut self.found {
            Found::ByBounds(list) => list.next(),
            Found::ByPlace(keys, _) => keys.next(),
        }
    }
}

impl Machine {
    /// The first so many keys of the ranked list at a position of the configuration.
    pub fn top(&self, alloc: Global, list: usize, most: usize) -> Result<Ranked<'_>, NoMemory>
        requires there { list < length self.now.config.ranks }
        requires sound { IsSound self.now }
        ensures { IfOk result
            (λ found. found ≡ take most (ranked self.now (rank_of self.now list))) }
    {
        let rank = rank_at(self.config.ranks.as_slice(), list);
        let wanted = Wanted {
            table: rank.table,
            col: rank.col,
            n: most.min(rank.n as usize),
            now: self.moment,
        };
        let few = (self.used(rank.table) / LOOKS_OF).saturating_add(LOOKS);
        let near = self.leaders.looks_at_most(alloc, list, wanted, self, few)?;
        if near {
            return Ok(Ranked {
                found: Found::ByBounds(self.leaders.top(alloc, list, wanted, self)?),
            });
        }
        let best = best_of(alloc, self, wanted)?;
        Ok(Ranked {
            found: Found::ByPlace(best.into_iter(), self.used(rank.table)),
        })
    }
}

// The first keys of a table by a column at the machine's moment, each with its value.
fn best_of<'a>(
    alloc: Global,
    machine: &'a Machine,
    wanted: Wanted,
) -> Result<Vec<(&'a Key, u128)>, NoMemory>
    requires sound { IsSound machine.now }
    requires short { wanted.n ≤ LONGEST_RANK }
    requires now { wanted.now ≡ machine.now.moment }
    ensures { IfOk result (λ best. map key_and_value best.items
        ≡ take wanted.n (ranking machine.now wanted.table wanted.col)) }
{
    match machine.rows.each_key(wanted.table) {
        None => Ok(Vec::new(alloc)),
        Some(walk) => {
            let mut best = Best::new(alloc, wanted.n)?;
            let cols = cols_of(machine.config.tables.as_slice(), wanted.table);
            offer_each(&mut best, walk, cols, wanted.col, wanted.now);
            Ok(best.into_keys())
        }
    }
}

// Offers the keys of a walk, each with what its rows sum up to.
fn offer_each<'a>(best: &mut Best<'a>, walk: EachKey<'a>, cols: &[(Col, u32)], col: Col, t: u64)
    ensures keys { take best.old.room best.new.keys
        ≡ best_after best.old cols.now col t walk.entry }
    ensures room { best.new.room ≡ best.old.room }
{
    for (key, rows) in walk {
        let _few = rows.len();
        best.offer(key, worth(&rows, cols, col, t));
    }
}

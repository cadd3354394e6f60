ghost use Rattle.std.specs.Prelude.{◌≡◌, MatchOption, None, Some, length};
ghost use Rattle.std.specs.Iterator.{at_most};
ghost use Rattle.std.specs.Map.Iter.{TakesFirst};
ghost use Rattle.standing_filters.specs.Placed.{change_in, rank_in, verdicts_in};
ghost use Rattle.standing_filters.specs.Plans.{changes_of, lent_change};

use crate::marked::MarkedVerdicts;
use agg_types::Key;
use place_order::Places;
use std::marker::Model;

/// Lends the keys on which a standing filter's verdict changes, in order, each with that moment.
/// Takes no memory.
///
/// Contracts see the list of what it has left.
#[derive(Drop)]
pub struct Planned<'a> {
    // The places of the keys with verdicts.
    order: Places<'a>,
    verdicts: &'a MarkedVerdicts,
}

impl<'a> Model for Planned<'a> {
    ghost use Rattle.std.specs.Prelude.{List, ℕ};
    ghost use Rattle.standing_filters.specs.Placed.{verdicts_in};
    ghost use Rattle.standing_filters.specs.Plans.{changes_of};

    ghost Value = { List (ℕ × List ℕ) };

    ghost view = { λ left. changes_of (verdicts_in left.verdicts.now.places left.order) };
}

impl<'a> Planned<'a> {
    pub(crate) fn new(order: Places<'a>, verdicts: &'a MarkedVerdicts) -> Planned<'a>
        ensures { result ≡ changes_of (verdicts_in verdicts.entry.now.places order.entry) }
    {
        Planned { order, verdicts }
    }
}

impl<'a> Iterator for Planned<'a> {
    type Item = (u64, &'a Key);

    ghost next_gives = { TakesFirst lent_change };

    ghost remaining = { λ left. at_most (length left) };

    fn next(&mut self) -> Option<(u64, &'a Key)> {
        while let Some(at) = self.order.next() {
            if let Some(change) = key_change(self.verdicts, at) {
                return Some(change);
            }
        }
        None
    }
}

/// When the verdict in a place changes.
pub(crate) fn change_at(verdicts: &MarkedVerdicts, at: usize) -> Option<u64>
    ensures { result ≡ change_in verdicts.now.places at }
{
    match verdicts.value(at) {
        Some(verdict) => verdict.next,
        None => None,
    }
}

// The key in a place, if the verdict there changes, with that moment.
fn key_change(verdicts: &MarkedVerdicts, at: usize) -> Option<(u64, &Key)>
    ensures { MatchOption result (change_in verdicts.now.places at ≡ None)
        (λ change. (change_in verdicts.now.places at ≡ Some change.0)
        × (change.1.now ≡ rank_in verdicts.now.places at)) }
{
    let moment = change_at(verdicts, at)?;
    let key = verdicts.key(at)?;
    Some((moment, key))
}

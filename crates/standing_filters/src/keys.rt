ghost use Rattle.std.specs.Prelude.{◌≡◌, IfOk, MatchOption, false, length, map, true};
ghost use Rattle.std.specs.Iterator.{at_most};
ghost use Rattle.std.specs.Map.Iter.{TakesFirst, deref};
ghost use Rattle.standing_filters.specs.Placed.{rank_in, verdict_in, verdicts_in};
ghost use Rattle.standing_filters.specs.Watched.{keys_held};

use crate::marked::MarkedVerdicts;
use agg_types::{Key, NoMemory};
use place_order::Places;
use std::alloc::Global;
use std::marker::Model;

/// Lends the keys that a standing filter holds, in order. Takes no memory.
///
/// Contracts see the list of what it has left.
#[derive(Drop)]
pub struct Keys<'a> {
    // The places of the keys with verdicts.
    order: Places<'a>,
    verdicts: &'a MarkedVerdicts,
}

impl<'a> Model for Keys<'a> {
    ghost use Rattle.std.specs.Prelude.{List, ℕ};
    ghost use Rattle.standing_filters.specs.Placed.{verdicts_in};
    ghost use Rattle.standing_filters.specs.Watched.{keys_held};

    ghost Value = { List (List ℕ) };

    ghost view = { λ keys. keys_held (verdicts_in keys.verdicts.now.places keys.order) };
}

impl<'a> Keys<'a> {
    pub(crate) fn new(order: Places<'a>, verdicts: &'a MarkedVerdicts) -> Keys<'a>
        ensures { result ≡ keys_held (verdicts_in verdicts.entry.now.places order.entry) }
    {
        Keys { order, verdicts }
    }

    /// The keys that are left, as a list. `NoMemory` where an allocation for it failed.
    pub fn into_vec(self, alloc: Global) -> Result<Vec<&'a Key>, NoMemory>
        ensures { IfOk result (λ keys. map (λ key. key.now) keys.items ≡ self.entry) }
    {
        let mut found = Vec::new(alloc);
        for key in self {
            found.push(key)?;
        }
        Ok(found)
    }
}

impl<'a> Iterator for Keys<'a> {
    type Item = &'a Key;

    ghost next_gives = { TakesFirst deref };

    ghost remaining = { λ keys. at_most (length keys) };

    fn next(&mut self) -> Option<&'a Key> {
        while let Some(at) = self.order.next() {
            if let Some(key) = held_key(self.verdicts, at) {
                return Some(key);
            }
        }
        None
    }
}

// The key in a place, if the verdict there says that it is held.
fn held_key(verdicts: &MarkedVerdicts, at: usize) -> Option<&Key>
    ensures { MatchOption result ((verdict_in verdicts.now.places at).holds ≡ false)
        (λ key. ((verdict_in verdicts.now.places at).holds ≡ true)
        × (key.now ≡ rank_in verdicts.now.places at)) }
{
    let verdict = verdicts.value(at)?;
    if !verdict.holds {
        return None;
    }
    verdicts.key(at)
}

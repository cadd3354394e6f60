//! The best of keys that come in any order.

ghost use Rattle.std.specs.Prelude.{◌≡◌, ◌≤◌, [], length, map, IfOk};
ghost use Rattle.agg_types.specs.declared.limits.TheConstants.{LONGEST_RANK};
ghost use Rattle.ranked.specs.Best.{with_offered};
ghost use Rattle.ranked.specs.Walk.{view_of_candidate};

use crate::walk::offer;
use agg_types::{Key, NoMemory};
use std::alloc::Global;
use std::marker::Model;

/// The best of the keys that were offered, for who looks at all keys of a table: a larger value
/// stands first, and of equal ones the smaller key.
///
/// Contracts see the keys that are kept, each with its value, and how many there may be.
#[derive(Drop)]
pub struct Best<'a> {
    // The best first.
    keys: Vec<(&'a Key, u128)>,
    room: usize,
}

impl<'a> Model for Best<'a> {
    ghost use Rattle.std.specs.Prelude.{map, vec_len, vec_capacity, ◌≤◌, ◌<◌};
    ghost use Rattle.ranked.specs.Best.{BestKeys};
    ghost use Rattle.ranked.specs.Walk.{AreRanked, view_of_candidate};

    ghost Value = { BestKeys };

    ghost view = { λ b. record { keys = map view_of_candidate b.keys.items; room = b.room } };

    ghost invariant = { λ b. (vec_len b.keys ≤ b.room) × (b.room < vec_capacity b.keys)
        × AreRanked (map view_of_candidate b.keys.items) };
}

impl<'a> Best<'a> {
    /// No keys, and room for so many. Takes all memory that they need.
    pub fn new(alloc: Global, room: usize) -> Result<Best<'a>, NoMemory>
        requires { room ≤ LONGEST_RANK }
        ensures none { IfOk result (λ best. best.keys ≡ []) }
        ensures room { IfOk result (λ best. best.room ≡ room) }
    {
        Ok(Best {
            keys: Vec::with_capacity(alloc, room + 1)?,
            room,
        })
    }

    /// Takes a key with its value, if it is one of the best so far. Of one that isn't, no more than
    /// its value is compared, but where it ties with the last one. Takes no memory.
    pub fn offer(&mut self, key: &'a Key, value: u128)
        ensures { self.new ≡ with_offered (key.entry.now, value) self.old }
    {
        offer(&mut self.keys, self.room, (key, value));
    }

    /// The value of the last key, once there are as many as there may be.
    pub(crate) fn least(&self) -> Option<u128> {
        if self.keys.len() < self.room {
            return None;
        }
        match self.keys.last() {
            None => None,
            Some(last) => Some(last.1),
        }
    }

    /// The keys, the best first, each with its value.
    pub fn into_keys(self) -> Vec<(&'a Key, u128)>
        ensures keys { map view_of_candidate result.items ≡ self.entry.keys }
        ensures few { length self.entry.keys ≤ self.entry.room }
    {
        let Best { keys, .. } = self;
        keys
    }
}

ghost use Rattle.std.specs.Prelude.{◌≡◌, length};
ghost use Rattle.std.specs.Iterator.{at_most};
ghost use Rattle.std.specs.Map.Iter.{TakesFirst, deref};

use crate::key_sums::KeySums;
use agg_types::Key;
use std::collections::btree_map;
use std::marker::Model;

/// Lends the keys of a table that have a row, in order. Takes no memory.
///
/// Contracts see the list of what it has left.
#[derive(Drop)]
pub struct Keys<'a> {
    keys: btree_map::Keys<'a, Key, KeySums>,
}

impl<'a> Model for Keys<'a> {
    ghost use Rattle.std.specs.Prelude.{List, ℕ};

    ghost Value = { List (List ℕ) };

    ghost view = { λ keys. keys.keys };
}

impl<'a> Keys<'a> {
    pub(crate) fn new(keys: btree_map::Keys<'a, Key, KeySums>) -> Keys<'a>
        ensures { result ≡ keys.entry }
    {
        Keys { keys }
    }
}

impl<'a> Iterator for Keys<'a> {
    type Item = &'a Key;

    ghost next_gives = { TakesFirst deref };

    ghost remaining = { λ keys. at_most (length keys) };

    fn next(&mut self) -> Option<&'a Key> {
        self.keys.next()
    }
}

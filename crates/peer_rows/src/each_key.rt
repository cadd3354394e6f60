ghost use Rattle.std.specs.Prelude.{◌≡◌, length};
ghost use Rattle.std.specs.Iterator.{at_most};
ghost use Rattle.std.specs.Map.Iter.{TakesFirst};
ghost use Rattle.peer_rows.specs.Listing.{key_and_rows};
ghost use Rattle.peer_rows.specs.Places.{by_place};

use crate::OfKey;
use crate::index::Index;
use agg_types::Key;
use std::marker::Model;

/// Lends the keys of a table, each once with its rows, in no order. Takes no memory.
///
/// Contracts see the list of what it has left.
#[derive(Drop)]
pub struct EachKey<'a> {
    index: &'a Index,
    from: usize,
}

impl<'a> Model for EachKey<'a> {
    ghost use Rattle.std.specs.Prelude.{List, ℕ, drop};
    ghost use Rattle.peer_rows.specs.declared.row.Row.{Row};
    ghost use Rattle.peer_rows.specs.Places.{by_place};

    ghost Value = { List (List ℕ × List (ℕ × Row)) };

    ghost view = { λ keys. by_place (drop keys.from keys.index.now.places) };
}

impl<'a> EachKey<'a> {
    // All keys of an index.
    pub(crate) fn new(index: &'a Index) -> EachKey<'a>
        ensures { result ≡ by_place index.now.places }
    {
        EachKey { index, from: 0 }
    }
}

impl<'a> Iterator for EachKey<'a> {
    type Item = (&'a Key, OfKey<'a>);

    ghost next_gives = { TakesFirst key_and_rows };

    ghost remaining = { λ keys. at_most (length keys) };

    fn next(&mut self) -> Option<(&'a Key, OfKey<'a>)> {
        let _places = self.index.places();
        let at = self.index.first_from(self.from)?;
        let key = self.index.key(at)?;
        let rows = self.index.value(at)?;
        self.from = at + 1;
        Some((key, rows.iter()))
    }
}

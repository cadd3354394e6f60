ghost use Rattle.std.specs.Prelude.{◌≡◌, length};
ghost use Rattle.std.specs.Iterator.{at_most};
ghost use Rattle.std.specs.Map.Iter.{TakesFirst};
ghost use Rattle.peer_rows.specs.Listing.{spot_and_row};
ghost use Rattle.peer_rows.specs.Places.{shown};
ghost use Rattle.peer_rows.specs.Table.{rows_in};

use crate::listing::Lent;
use crate::{OfKey, Row};
use agg_types::Key;
use std::marker::Model;
use std::vec::IntoIter;

/// Lends the rows of a table, each with its key and the peer that holds it, by key, then by peer.
/// Takes no memory.
///
/// Contracts see the list of what it has left.
#[derive(Drop)]
pub struct ByKey<'a> {
    at: Option<(&'a Key, OfKey<'a>)>,
    keys: IntoIter<Lent<'a>>,
}

impl<'a> Model for ByKey<'a> {
    ghost use Rattle.std.specs.Prelude.{List, ◌++◌};
    ghost use Rattle.std.specs.Vec.Iter.{into_iter_items};
    ghost use Rattle.peer_rows.specs.declared.row.Row.{Row};
    ghost use Rattle.peer_rows.specs.Table.{Spot, rows_in};
    ghost use Rattle.peer_rows.specs.Listing.{left_at};
    ghost use Rattle.peer_rows.specs.Places.{shown};

    ghost Value = { List (Spot × Row) };

    ghost view = { λ rows. left_at rows.at ++ rows_in (shown (into_iter_items rows.keys)) };
}

impl<'a> ByKey<'a> {
    // All rows of these keys.
    pub(crate) fn new(keys: Vec<Lent<'a>>) -> ByKey<'a>
        ensures { result ≡ rows_in (shown keys.entry.items) }
    {
        ByKey {
            at: None,
            keys: keys.into_iter(),
        }
    }
}

impl<'a> Iterator for ByKey<'a> {
    type Item = (&'a Key, usize, &'a Row);

    ghost next_gives = { TakesFirst spot_and_row };

    ghost remaining = { λ rows. at_most (length rows) };

    fn next(&mut self) -> Option<(&'a Key, usize, &'a Row)> {
        if let Some(at) = &mut self.at {
            if let Some((peer, row)) = at.1.next() {
                return Some((at.0, peer, row));
            }
        }
        let (key, held) = self.keys.next()?;
        let mut rows = held.iter();
        let (peer, row) = rows.next()?;
        self.at = Some((key, rows));
        Some((key, peer, row))
    }
}

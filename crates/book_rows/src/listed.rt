//! A key that is to be listed, with its rows.

ghost use Rattle.std.specs.Prelude.{◌≡◌, ◌<◌, ℕ, slice_index_or};
ghost use Rattle.std.specs.Cmp.Lexicographic.{slice_cmp};
ghost use Rattle.std.specs.List.{IsDistinct};
ghost use Rattle.std.specs.List.Sorted.{IsPermutation, IsStrictlySortedBy};
ghost use Rattle.std.specs.Map.{keys_of};
ghost use Rattle.std.specs.Ordering.{eq_by_cmp, nat_cmp};
ghost use Rattle.book_rows.specs.Heads.{IsHead};
ghost use Rattle.book_rows.specs.Listing.{sums_of};

use crate::queries::{tally, values};
use agg_types::{Col, Key};
use fleet_model::Summed;
use peer_rows::OfKey;
use std::cmp::Ordering;
use std::marker::Model;

/// A key with its rows, lent, and the number of its first eight bytes. Keys whose numbers differ
/// are ordered by them, without a look at the keys.
#[derive(Drop)]
pub(crate) struct Listed<'a> {
    head: u64,
    key: &'a Key,
    rows: OfKey<'a>,
}

impl<'a> Model for Listed<'a> {
    ghost use Rattle.std.specs.Prelude.{List, ℕ};
    ghost use Rattle.peer_rows.specs.declared.row.Row.{Row};
    ghost use Rattle.book_rows.specs.Heads.{IsHead};

    ghost Value = { List ℕ × List (ℕ × Row) };

    ghost view = { λ listed. (listed.key.now, listed.rows) };

    ghost invariant = { λ listed. IsHead listed.head listed.key.now };
}

impl<'a> Listed<'a> {
    /// A key with its rows.
    pub(crate) fn new(key: &'a Key, rows: OfKey<'a>) -> Listed<'a>
        ensures { result ≡ (key.now, rows.entry) }
    {
        Listed {
            head: head(key.as_slice()),
            key,
            rows,
        }
    }

    /// The key.
    pub(crate) fn key(&self) -> &'a Key
        ensures { result.now ≡ self.now.0 }
    {
        self.key
    }

    /// What the rows of the key sum up to.
    pub(crate) fn sums(&self, cols: &[(Col, u32)], t: u64) -> Summed
        ensures { result ≡ sums_of cols.now t self.now.1 }
    {
        let _few = self.rows.len();
        let (peers, left) = tally(self.rows.duplicate(), t).unwrap_or((0, None));
        Summed {
            peers,
            left,
            values: values(&self.rows, cols, t),
        }
    }

    /// The order of the keys' bytes.
    pub(crate) fn order(&self, other: &Listed<'_>) -> Ordering
        ensures { result ≡ slice_cmp nat_cmp self.now.0 other.now.0 }
    {
        if self.head < other.head {
            return Ordering::Less;
        }
        if other.head < self.head {
            return Ordering::Greater;
        }
        self.key.cmp(other.key)
    }
}

/// Puts keys, each of which stands once, in order.
pub(crate) fn sort(keys: &mut Vec<Listed<'_>>)
    ensures moved { IsPermutation keys.old.items keys.new.items }
    ensures in_order { IsDistinct (eq_by_cmp (slice_cmp nat_cmp)) (keys_of keys.old.items)
        → IsStrictlySortedBy (slice_cmp nat_cmp) (keys_of keys.new.items) }
{
    keys.sort_unstable_by(
        |a: &Listed<'_>, b: &Listed<'_>| -> Ordering
            ensures { result ≡ slice_cmp nat_cmp a.now.0 b.now.0 }
        { a.order(b) },
    );
}

// The number of the first eight bytes, the first one the greatest, with zeros behind a shorter key.
fn head(bytes: &[u8]) -> u64
    ensures { IsHead result bytes.now }
{
    u64::from_be_bytes([
        byte(bytes, 0),
        byte(bytes, 1),
        byte(bytes, 2),
        byte(bytes, 3),
        byte(bytes, 4),
        byte(bytes, 5),
        byte(bytes, 6),
        byte(bytes, 7),
    ])
}

// The byte of a place, or zero behind the last.
fn byte(bytes: &[u8], at: usize) -> u8
    ensures { result ≡ slice_index_or bytes.now at 0 }
{
    match bytes.get(at) {
        Some(byte) => *byte,
        None => 0,
    }
}

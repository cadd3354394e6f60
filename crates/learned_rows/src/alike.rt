//! Keys of which two peers hold the same numbers.

ghost use Rattle.std.specs.Prelude.{◌≡◌, count_by};
ghost use Rattle.book.specs.ByPeer.{peer_rows};
ghost use Rattle.learned_rows.specs.Alike.{are_alike, has_alike, has_large, is_held_alike};

use agg_types::Key;
use book::Book;
use fleet_model::Summed;

/// The greatest number that rows of two peers may share by chance.
pub const SMALL: u128 = 3;

/// Whether two rows of a key have the same numbers, one of them above 3.
pub fn are_alike(one: &Summed, other: &Summed) -> bool
    ensures { result ≡ are_alike one.now other.now }
{
    one.values == other.values && has_large(&one.values)
}

// Whether one of some numbers is above 3.
fn has_large(values: &[u128]) -> bool
    ensures { result ≡ has_large values.now }
{
    values.iter().any(|value| *value > SMALL)
}

// Whether a peer holds a row of a key that is like this one.
fn holds_alike(book: &Book, table: usize, key: &Key, peer: usize, row: &Summed) -> bool
    ensures { result ≡ has_alike (peer_rows book.now table key.now) peer row.now }
{
    for held in book.peer_rows(table, key) {
        if held.peer == peer && are_alike(row, &held.sums) {
            return true;
        }
    }
    false
}

// Whether two peers hold rows of a key that are alike.
fn is_held_alike(book: &Book, table: usize, key: &Key, peer: usize, other: usize) -> bool
    ensures { result ≡ is_held_alike (peer_rows book.now table key.now) peer other }
{
    for held in book.peer_rows(table, key) {
        if held.peer == peer && holds_alike(book, table, key, other, &held.sums) {
            return true;
        }
    }
    false
}

/// Of how many of these keys of a table two peers hold rows that are alike. Takes no memory.
pub fn count_alike(book: &Book, table: usize, keys: &[Key], peer: usize, other: usize) -> usize
    ensures { result
        ≡ count_by (λ key. is_held_alike (peer_rows book.now table key) peer other) keys.now }
{
    let mut count = 0usize;
    for key in keys {
        if is_held_alike(book, table, key, peer, other) {
            count += 1;
        }
    }
    count
}

//! What is asked of a book by a filter's name.

ghost use Rattle.std.specs.Prelude.{◌≡◌, map, IfOk};
ghost use Rattle.fleet_model.specs.Named.{keys_named};

use crate::Book;
use agg_types::{Key, NoMemory};
use std::alloc::Global;

/// The keys that the standing filter with a name holds at the book's moment, in order; none where
/// there is no such filter.
pub fn keys_named<'a>(alloc: Global, book: &'a Book, name: &[u8]) -> Result<Vec<&'a Key>, NoMemory>
    ensures { IfOk result
        (λ keys. map (λ key. key.now) keys.items ≡ keys_named book.now name.now) }
{
    match book.config().filters.position(name) {
        None => Ok(Vec::new(alloc)),
        Some(filter) => book.filter_keys(filter).into_vec(alloc),
    }
}

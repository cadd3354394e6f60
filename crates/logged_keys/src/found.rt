//! What a look has of one filter.

ghost use Rattle.std.specs.Prelude.{◌≡◌, true};
ghost use Rattle.hub.specs.Trailed.{trail_to};
ghost use Rattle.logged_keys.specs.Telling.{IsFound};

use agg_types::NoMemory;
use hub::{Change, Look};

/// The changes of the set of the filter at a place that weren't told yet. None where they aren't
/// known any more, or memory for them was refused.
#[derive(Drop)]
pub struct Found<'l> {
    pub(crate) filter: usize,
    pub(crate) changes: Option<Vec<&'l Change>>,
}

impl<'l> Found<'l> {
    /// Those of the filter at a place behind a list of so many events, as a look tells them.
    pub(crate) fn behind(look: &'l Look<'_>, filter: usize, seen: u64) -> Found<'l>
        requires { look.now.lens.now.inside ≡ true }
        ensures filter { result.filter ≡ filter }
        ensures found { IsFound (trail_to look.now.lens.now.seen) seen result }
    {
        let changes = match look.changes(filter, seen) {
            Ok(changes) => changes,
            Err(NoMemory) => None,
        };
        Found { filter, changes }
    }

    /// How many there are.
    pub(crate) fn count(&self) -> usize {
        match &self.changes {
            None => 0,
            Some(changes) => changes.len(),
        }
    }
}

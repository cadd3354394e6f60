//! What stands in an empty place.
use crate::Row;
use crate::key_rows::KeyRows;
use agg_types::Key;
use place_index::{PlaceValue, Slot};
use std::alloc::Global;

// A place has no byte that says whether it is empty: there the key is the blank one.
const _: () = prove!(size_of::<Slot<Key, KeyRows>>() == 72);

impl PlaceValue for KeyRows {
    // A row without cells. The number stands where a peer's does.
    fn blank(alloc: Global, number: usize) -> KeyRows {
        let peer = number.min(u32::MAX as usize) as u32;
        KeyRows::new(alloc, peer, Row::blank())
    }

    fn number(&self) -> usize {
        match self.iter().next() {
            Some((peer, _)) => peer,
            None => 0,
        }
    }
}

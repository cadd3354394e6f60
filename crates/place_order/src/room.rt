//! Items for places, in memory that was taken for them.
ghost use Rattle.std.specs.Prelude.{◌≡◌, ◌<◌, ◌≤◌, ◌+◌, ℕ, length, OnOk, slice_index_or};
ghost use Rattle.place_order.specs.Room.{space_in};

use agg_types::NoMemory;
use segments::Segments;

/// Takes the memory for each place below a number.
pub(crate) fn make_room<T: Drop>(segments: &mut Segments<T>, places: usize) -> Result<(), NoMemory>
    ensures items { segments.new.items ≡ segments.old.items }
    ensures ok { OnOk result (places ≤ space_in segments.new) }
    ensures space { space_in segments.old ≤ space_in segments.new }
{
    segments.reserve(places.saturating_sub(segments.len()))
}

/// Adds blank items, up to the one of a place.
pub(crate) fn fill<T: Copy>(segments: &mut Segments<T>, place: usize, blank: T)
    requires { place < space_in segments.old }
    ensures within { place < length segments.new.items }
    ensures more { length segments.old.items ≤ length segments.new.items }
    ensures same { (q : ℕ) → slice_index_or segments.new.items q blank
        ≡ slice_index_or segments.old.items q blank }
    ensures space { space_in segments.new ≡ space_in segments.old }
{
    while segments.len() <= place {
        segments.push_reserved(blank);
    }
}

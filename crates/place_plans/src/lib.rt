//! Planned moments of numbered places: for each place one, or none.
//!
//! `peer_rows` plans with it when the rows of a place are looked at, since one may have ended.
//! Contracts see the list of the places, each with its planned moment or none; a place beyond the
//! last has none. `plan` gives a place a moment in the stead of the one before, `cancel` takes it,
//! and `take_due` takes one that has come, if there is any. All other places keep theirs, so no
//! plan is left behind. `next_at` is the least planned moment. `due` lends places that come next,
//! and nothing is promised of them. `count` is the number of places that have one. `NoMemory` comes
//! where an allocation failed, or where a place or a moment has too many for a `u32`, and changes
//! nothing.
//!
//! Places lie in buckets, one for each planned moment, in no order. A place knows its moment and
//! where it stands in that bucket, so it leaves it without a search among its fellows: the last one
//! there takes its stand. The buckets lie in an ordered map by moment. An empty one is given back.
//!
//! That map stays small where moments are rounded: `look_at` gives a moment somewhat before an end,
//! on a raster that is the finer the nearer the end is. Whoever looks then, and finds that the end
//! hasn't come, plans anew. An end that is t ms away is reached by about log64(t) looks.
//!
//! Where a place stands lies in 8 bytes: 40 bits of moment and 24 of number. The first moment or
//! number that doesn't fit there takes the memory for 12 bytes a place, in which all then lie.
//!
//! No clause says how long a call takes, that an empty bucket is given back, or how much memory is
//! used. It is those 8 or 12 bytes a place, and 4 to 4.5 a plan in a bucket of many.
#![tactic(auto)]

mod all_links;
mod bucket;
mod buckets;
mod link;
mod plans;
mod rounding;
mod wide_link;

pub use plans::PlacePlans;
pub use rounding::look_at;

//! The key and the values of an update: from the bytes behind its id and its life to the cells of a
//! table's columns.
//!
//! `session_core` stands on it. A `Layout` is what a definition says of the values; a `CachedPlan`
//! reads the cells of a table's columns under it, exactly those of `cells_at`, and nothing where
//! that is `None`. `lack_of` and `types_not_kept` tell what a definition doesn't bring, for who
//! shows it; `laws` says that what lacks counts 0, and that all else is read. No clause says that
//! memory is there, nor how fast it is.
#![tactic(auto)]

mod cached_plan;
mod decode_plan;
mod lack;
pub mod laws;
mod layout;
mod plan;
mod straight;
mod values;

pub use cached_plan::{CachedPlan, take_plan};
pub use lack::{Lack, lack_of, types_not_kept};
pub use layout::{Layout, MOST_ELEMENTS, TYPES, layout_of};
pub use values::{key_at, key_of, key_of_length};

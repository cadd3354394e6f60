//! What the HTTP door tells, as text: figures for Prometheus, and JSON.
//!
//! `web_lists` and `web_door` make their texts with it. A `Summary` keeps what the figures and the
//! page need of a book that was looked at, so that one look serves both for a while. A `Standing`
//! is what stands of the collector beside the book.
//!
//! Promised: whether a key stands behind another one (`is_behind`), the text of a label's value
//! (`append_label`), a peer's state (`PeerStanding::state`), what it holds of all tables
//! (`Summary::of_peer`) and a table's kind of keys (`put_table`) are exact. A list of peers behind
//! none that is configured is refused (`peer_list`). What the texts say beside that, tests show. No
//! clause says that an allocation fails only where there is no memory.
#![tactic(auto)]

mod figure;
mod labels;
mod objects;
mod part;
mod peers;
mod prometheus;
mod shown;
mod standing;
mod summary;

pub use labels::append_label;
pub use objects::Json;
pub use part::is_behind;
pub use peers::{AskFault, Entries, begin_list, end_list, peer_list};
pub use prometheus::figures;
pub use shown::{overview, put_table};
pub use standing::{NotSent, PeerStanding, Standing};
pub use summary::{FilterSum, PeerRows, RankSum, Summary};

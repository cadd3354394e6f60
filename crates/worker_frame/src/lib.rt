//! What the workers of a collector stand on: what they share, what their bytes come from and go to,
//! the seat that they post at, and how they end.
//!
//! `peer_worker` serves the connections of peers, `admin_worker` those of admins, and `serve` has
//! the timer and starts all of them; programs take these names from `serve`. A `Context` holds what
//! lets a worker wait, the allocator, the hub, the clock and the gate.
//!
//! Promised: a `Source` tells what it gave, and `send` writes exactly its bytes, or a beginning of
//! them where a write fails. A `Poster` tells at its seat exactly the batches that it posted, and
//! what its receipts show is that (`Told`). A `Clock` tells which moments it can give.
//!
//! No clause says what a gate is told, when it lets a worker pass, nor how long a clock rests.
#![tactic(auto)]

mod clock;
mod context;
mod door;
mod gate;
mod lines;
mod poster;
mod served;
mod source;
mod status;
mod writing;

pub use clock::Clock;
pub use context::{Context, Link};
pub use door::Door;
pub use gate::{Gate, Gone, News, Place, Taught};
pub use lines::split_line;
pub use poster::Poster;
pub use served::{Cause, Faulted, Served};
pub use source::{Came, MOST_READS, ReadFailed, Source, buffer};
pub use status::Status;
pub use writing::{WriteFailed, front, send};

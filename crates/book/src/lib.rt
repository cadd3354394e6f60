//! The book that the product runs on: after each event the state that recomputing from all events
//! gives, and its answers.
//!
//! Contracts see a book as `fleet_model`'s state: each answer is that model's, recomputed from all
//! events. `filter_keys` and `next_change` are never refused. Inside, rows lie by table,
//! key and peer in `book_rows`. `book_machine` puts them, with bounds for each ranked list on the
//! values of its table's keys, and for each standing filter verdicts on them are kept here
//! (`standing_filters`). An update is a search and a row replaced, and its key is judged by the
//! filters of its table. Where more than four proxies hold the key, the most that its rows are ever
//! worth lies with them, and of fewer a look at their rows tells it. For a filter that the key
//! can't meet by that, and for a list's bound, no value is worked out. Whether a key meets a bound
//! is asked of no more rows than it takes (`book_rows`), and when its rows come to nothing one pass
//! over them tells (`book_machine`). A moment looks at what is due and no more: rows that end, and
//! verdicts that change. A filter's keys and its next change are read off its verdicts, and a list
//! looks at the keys of which a bound isn't below what it gives. Where these are many, it goes
//! through all keys as their rows lie. Users are the fleet, the hub and the commands.
//!
//! Verdicts are never given up: the book's invariant says so (`IsBook`), and no public clause. What
//! an event takes for them is made before it is applied (`preparing`): room to judge an update's
//! key, and the verdicts of an added filter. Where memory for it is refused, so is the whole event.
//! Behind that only plans and flips take memory, and may be lost. A clear takes the verdicts on its
//! keys away and judges none (`forgetting`).
//!
//! `Book::step_at` says how many values an event read (`specs/Reads.antt`). It is none where
//! nothing changes by it or keys are cleared, and else at most 505 for each pair of a filter and a
//! key that it concerns.
//!
//! `Book::step_run` takes a seat's events as one: what updates of one peer that follow each other
//! have in common is looked up once, and the seat is counted up once behind them (`runs`). So is,
//! while they are of one table, whether filters and ranked lists are of it (`TableUse`). The keys
//! of sixteen updates are looked for together, so that their waits for memory overlap
//! (`lookahead`). It promises the state that the events make one by one.
//!
//! `Book::step_telling` and `step_run` tell by `Flips` which keys come into the filters' sets and
//! which leave them, so that who keeps copies of the sets needn't list them anew. That isn't known
//! where filters come or go, where a filter's table is cleared whole, and where an allocation for
//! it failed.
//!
//! `Taken` says whether an event is an update that isn't taken for want of room. A book
//! counts these by table and peer, beside what contracts see of it. So what `Book::dropped`
//! answers, tests show.
//!
//! Speed is measured, not promised. An end stays planned where it was while its row's end only
//! moves later, and is planned anew when it comes due, so some rows are looked at before they end.
//! A bound stays while it holds and isn't far above what it bounds.
#![tactic(auto)]

mod adding;
mod applying;
mod book;
mod by_peer;
mod foretold;
mod forgetting;
mod lookahead;
mod named;
mod one_key;
mod preparing;
mod runs;
mod touching;
mod verdicts;

pub use book::{Book, Taken};
pub use book_machine::Ranked;
pub use book_rows::{BookRows, Sought};
pub use by_peer::{PeerRow, PeerRows};
pub use fleet_model::Summed;
pub use named::keys_named;
pub use peer_rows::Spot;
pub use standing_filters::{Flip, Flips, Keys, Verdict};

//! Standing filters: whether a filter holds a key, and when the clock alone changes that.
//!
//! Books list the keys of filters by it, and name the moment at which a set changes next. `judge`
//! reads one key's summed values, as they fall with time. It answers whether some row of it lives
//! and all conditions hold now, and the least later moment at which that is otherwise: to the
//! millisecond, ends of rows included. `Standing` keeps these verdicts for all filters of a
//! configuration, but for keys that a filter doesn't hold and never will by the clock alone. A key
//! whose values have changed is touched, and then judged by each filter of its table; as the clock
//! goes on, only keys whose change has come are judged.
//!
//! Promised: a verdict is exact; none is named as its change exactly where it never changes; at
//! most 505 values are read for it where they stay from 2^33 ms on. A touch gives the key's
//! verdicts at its moment and leaves all others. `moment` gives each key whose change has come its
//! verdict then, however many changes were passed. `add` adds a last filter, which has judged the
//! keys one by one before (`begin`, `Adding`).
//!
//! `prepare` makes the room that judging a key takes, before its row changes: in each filter of the
//! table for a verdict, and for a place in the order of the keys. A key of more than 16 bytes is
//! copied for each of them too. A touch of that key is then sure, whatever memory there is. So no
//! verdict is ever given up. `prepare`, `begin`, `judge` and `add` change no verdict where they run
//! out of memory. `moment` never does, and `remove`, which takes a filter away, needs none. Nor do
//! `forget` and `clear_table`, after which no filter of a table holds keys that have no row any
//! more; they read no value. `keys` lends the keys whose verdict is that they are held, `planned`
//! those whose verdicts change, each with that moment, and `next_change` is the least of these.
//!
//! `Flips` take down which keys come into sets and which leave them, as `touch`, `moment` and
//! `forget` change verdicts. Of a filter and a key the last flip says whether it is held, and where
//! there is none that hasn't changed. Where memory for flips is refused they are lost, and no call
//! fails for that.
//!
//! `fails_for_good` says of a condition that the most which values are ever worth settles it, for
//! who lists keys by conditions too.
//!
//! Some things are meant for speed, and no clause says them. A key which can't come into a set
//! again is known by one value of each condition, or by none where the values tell the most that a
//! key is ever worth. Room is made for 1,024 verdicts more than are needed, so that most calls find
//! it; memory for it is written only as verdicts come. Room is looked at once for up to 64 touches
//! of one table's short keys. A verdict is found in the place that `touch_near` is told, if it lies
//! there, and else by its key's hash, so that keys in order are searched only where a verdict comes
//! or goes. The hashes of keys with verdicts are marked: while these are few, most other keys are
//! known by a look at one mark. And the place in which a verdict lies has its next change planned,
//! without a search and without a copy of the key. Where memory for a plan is refused all plans of
//! that filter are lost, and no call fails: the verdicts say themselves when they change, and a
//! walk over them finds it until a moment at which a change has come plans them anew.
#![tactic(auto)]

mod adding;
mod flips;
mod forgetting;
mod judging;
mod kept;
mod keys;
pub mod laws;
mod marked;
mod marks;
mod planned;
mod plans;
mod standing;
mod touching;
mod turning;
mod watch;

pub use adding::Adding;
pub use flips::{Flip, Flips};
pub use judging::{Verdict, fails_for_good, judge};
pub use keys::Keys;
pub use planned::Planned;
pub use standing::Standing;

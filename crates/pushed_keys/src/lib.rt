//! Which keys of the pushed tables a turn puts and takes away.
//!
//! A pushed table is told to a proxy as a stick table, and its keys are those of a standing filter.
//! `pushed_of` lists the pushed tables of a configuration. `ToldTable` keeps what one connection
//! was told of a table: the last update's id, and marks of the keys that were put, in parts of at
//! most 256. `telling` calls this crate, and makes messages of what it finds. Here there are none.
//!
//! Promised: `tell_all` takes down of each table the changes that bring what was told to its set,
//! and what is told behind them. `tell_all_moved` finds the same from the keys that came into the
//! sets and left them. Both are exact over specs/Turns, whose rule for one key is specs/Rules:
//! when a key is put, put again, held and taken away. Where `are_quiet` or `are_idle` answers yes,
//! the turn would write nothing and leave what was told as it was. `laws` of `telling` say what
//! turns come to.
//!
//! No clause says that memory is there, that the two find each turn that changes nothing, nor how
//! fast it goes. `tell_all` and `are_quiet` walk the sets and the marks. `tell_all_moved` walks
//! what moved, and the parts in which a key moved, is due, or left and has come to the end of its
//! hold; the others it takes over as they are. `are_idle` looks at what each part says of its
//! oldest keys. Where a life is short and the keys of a set came at scattered moments, most parts
//! have a key that is due.
#![tactic(auto)]

mod change;
mod changes;
mod done;
mod idle;
mod least;
mod marks;
mod moved;
mod moving;
mod ordered;
mod parts;
mod passing;
mod pushed;
mod saying;
mod stands;
mod told;
mod turning;

pub use change::{Change, Turn, is_told};
pub use changes::Changes;
pub use idle::are_idle;
pub use marks::{Marks, Packed};
pub use moved::Moved;
pub use parts::Lent;
pub use pushed::{Pushed, pushed_of};
pub use saying::tell_all_moved;
pub use told::{Mark, ToldTable, UnsaidTable};
pub use turning::{are_quiet, tell_all, told_at};

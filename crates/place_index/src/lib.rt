//! An exact index: keys with values in numbered places. `peer_rows` keeps the rows of a table in
//! one, `standing_filters` the verdicts of a filter, and `ranked` the bounds of a list.
//!
//! Contracts see the list of the places, each empty or a key with its value, so a place's number is
//! part of the contract, and beside it for how many further keys there is room. `find` answers the
//! place of a key, or that none has it; no key has two. `insert` fills an empty place, or a new one
//! behind the last, and answers its number; `remove` empties one; `replace` exchanges the value in
//! one, and `value_mut` lends it for writing. All other places stay as they are. `count` is the
//! number of filled places, and `first_from` the step of a walk over them. No order is kept. A
//! contract above that sees keys in order takes `in_order`, which says that list of the places;
//! `proofs/Ordered.antt` says how it changes as they do.
//!
//! `reserve` makes room for so many keys, or changes nothing. As many inserts are then answered
//! `Ok`, whatever memory there is: each takes one from the room, and nothing else takes any.
//! `NoMemory`, which only `reserve` and an `insert` without room answer, leaves places and room as
//! they were. It comes where an allocation failed, and would come at the last number that a `usize`
//! has.
//!
//! Words name the places. A key's hash chooses a window of 16 words, and a key that finds no free
//! word there goes to an ordered map. A word has 24 bits of the hash and 24 of the place's number,
//! so a key beyond the first 16,777,215 places goes there too. So keys that are made to collide
//! cost what an ordered map costs, and the hash needs no secret. Beside the map the hashes of its
//! keys are marked, so that most keys which it doesn't have are known without a search there. Where
//! the map has no memory, the place goes to a short list whose memory was taken with the room, and
//! each search that ends there walks it. Nothing that a word, the map or the list says is believed
//! before the place's key was looked at. So all that is proved of them is one direction: each
//! filled place is reached from its key.
//!
//! A place is a key beside its value (`Slot`), without a byte that says whether it is empty. In an
//! empty one the blank key stands (`IndexKey::blank`), and a value that keeps the number of the
//! next empty place (`PlaceValue::blank`). The blank key may be laid down as any other: the number
//! of its own place is kept once for all, so all other places where it stands are empty. No value
//! says that a place is empty, so whoever borrows one may write any.
//!
//! Words lie in the windows of `hash_windows`, places in the blocks of `segments`, which never move
//! an item. So an insert moves 16 words, and the list of the blocks' addresses where that grows.
//!
//! Who wants several keys, or empties several places, asks for what each needs first, then touches
//! it, and only then looks or removes: so the waits for memory overlap. `trace`, `touch` and
//! `guess` say where a key may lie, `near` and `touch_near` where the word may stand that
//! `remove_near` frees. All are hints: nothing is promised of them, and no answer depends on one.
//!
//! No clause says how long a call takes, or how much memory is used. None says that keys stand in
//! windows at all, that windows grow, or how few hashes are marked (with more than 16,384 keys in
//! the map they aren't marked anew). None says that words and entries which name nothing any more
//! are gone: a `remove` that leaves them would meet its contract, and be slow. Nor does one say
//! that an empty place is taken before a new one, or that an insert with room asks for no memory,
//! only that it does without. A key stays in the ordered map or in the list until it is removed,
//! though there may be room elsewhere again.
#![tactic(auto)]

mod crowd;
mod index;
mod key;
mod marks;
mod reach;
mod slots;
mod value;

pub use hash_windows::{Near, Trace};
pub use index::PlaceIndex;
pub use key::IndexKey;
pub use slots::Slot;
pub use value::PlaceValue;

//! Words that name numbered places, in windows that hashes choose: `Windows`.
//!
//! `place_index` asks it where a key may lie. A key's hash chooses a window of 16 words; a word has
//! 24 bits of the hash and 24 of the place's number. A key that finds no free word, or whose
//! place has a greater number, isn't named here: `place_index` keeps it elsewhere.
//!
//! Promised is one direction (`Has`): what `put` answers to have named is named from then on, until
//! its own place is freed, however windows grow meanwhile. Whoever finds a word looks at its place,
//! so nothing is promised of `Trace` and `Near`, which say where a word may stand: they are hints.
//!
//! Windows are made one by one as places come (`grow`), each out of one other whose words it parts.
//! No clause says that windows grow, or that a word which names nothing any more is gone.
#![tactic(auto)]

mod parting;
mod windows;

pub use windows::{Near, Trace, WIDTH, Window, Windows, Word, modulo, short, word_at};

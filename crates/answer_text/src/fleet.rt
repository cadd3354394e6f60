//! The book that answers are read from, named here alone.

pub use book::{Book, PeerRow, PeerRows, Ranked, Summed};

//! What was told of a peer's tables, so that it is told once.

use crate::columns::Lacking;
use std::alloc::Global;

/// What is told of a followed table of a peer, which goes by its place in the configuration.
#[derive(Clone, Copy, Debug, PartialEq, Eq)]
pub enum Mention {
    /// It doesn't bring a configured column.
    Lacks(usize, Lacking),
    /// It has columns that aren't kept.
    NotKept(usize),
}

/// How much is remembered of a peer at most. What a configuration of 256 tables and 21 columns
/// can't have of reasons, a peer that defines its tables anew with ever other periods does.
const MOST: usize = 8_192;

/// What was told of a peer.
#[derive(Drop)]
pub struct Mentioned {
    told: Vec<Mention>,
}

impl Mentioned {
    /// Nothing. Takes no memory.
    pub fn new(alloc: Global) -> Mentioned {
        Mentioned {
            told: Vec::new(alloc),
        }
    }

    /// Whether this is to be told: it wasn't before. It is remembered then, unless that is too much
    /// or there is no memory.
    pub fn is_news(&mut self, mention: Mention) -> bool {
        if self.told.iter().any(|told| *told == mention) {
            return false;
        }
        if self.told.len() < MOST {
            let _ = self.told.push(mention);
        }
        true
    }
}

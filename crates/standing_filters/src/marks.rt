//! Marks of the hashes that the keys with verdicts may have.

ghost use Rattle.std.specs.Prelude.{◌≡◌, ℕ, true};
ghost use Rattle.standing_filters.specs.Marked.{is_marked};

use std::marker::Model;

/// How many marks there are: with 400 keys an unmarked hash is met nine times out of ten.
const MARKS: usize = 4096;

/// Marks of hashes, one for each remainder by their number: a hash is marked once one was that
/// leaves the same.
#[derive(Drop)]
pub(crate) struct Marks {
    marks: [bool; MARKS],
}

impl Model for Marks {
    ghost use Rattle.std.specs.Prelude.{Bool, List};

    ghost Value = { List Bool };

    ghost view = { λ m. m.marks };
}

impl Marks {
    /// No hash is marked.
    pub(crate) fn new() -> Marks {
        Marks {
            marks: [false; MARKS],
        }
    }

    /// Whether a hash is marked.
    #[inline]
    pub(crate) fn has(&self, hash: u32) -> bool
        ensures { result ≡ is_marked self.now hash }
    {
        self.marks[hash as usize % MARKS]
    }

    /// Marks a hash.
    pub(crate) fn mark(&mut self, hash: u32)
        ensures this { is_marked self.new hash ≡ true }
        ensures others { (other : ℕ) → is_marked self.old other ≡ true
            → is_marked self.new other ≡ true }
    {
        self.marks[hash as usize % MARKS] = true;
    }
}

//! Two peers that may teach one another's rows, and whether they do.

ghost use Rattle.std.specs.Prelude.{◌≡◌, ◌<◌, ◌^◌, length};
ghost use Rattle.learned_rows.specs.Judging.{alike_in, are_many, is_proved, prove_mesh};

use crate::alike::count_alike;
use agg_types::Key;
use book::Book;

/// How many learned rows another peer must hold too.
pub const LEAST_ROWS: u128 = 10;

/// And which part of them: a hundredth.
pub const SHARE: u128 = 100;

/// A peer whose session taught more learned rows of a table than own ones, and another one of which
/// that holds.
#[derive(Drop)]
pub struct Suspect {
    pub table: usize,
    pub peer: usize,
    pub other: usize,
    /// The seat of the peer's session, and one.
    pub seat: u64,
    /// How many updates of own rows the session taught of the table.
    pub own: u64,
    /// How many of rows that it had learned.
    pub learned: u64,
    /// Of how many of the latter the keys below are.
    pub heard: u64,
    /// These keys, each once.
    pub keys: Vec<Key>,
}

/// Whether a session of these updates taught more learned rows than own ones, and so many keys of a
/// sample, scaled to all learned rows, are at least 10, and a hundredth of these. The sample is of
/// so many of them as were heard.
pub fn prove_mesh(own: u64, learned: u64, heard: u64, alike: usize) -> bool
    ensures { result ≡ prove_mesh own learned heard alike }
{
    own < learned && are_many(u128::from(learned), u128::from(heard), alike as u128)
}

// Whether so many keys of a sample, scaled to all, are many.
fn are_many(learned: u128, heard: u128, alike: u128) -> bool
    requires learned { learned < 2 ^ 64 }
    requires heard { heard < 2 ^ 64 }
    requires alike { alike < 2 ^ 64 }
    ensures { result ≡ are_many learned heard alike }
{
    heard <= SHARE * alike && LEAST_ROWS * heard <= alike * learned
}

impl Suspect {
    /// Of how many keys of the sample both peers hold rows with the same numbers, one above 3.
    pub fn count_alike(&self, book: &Book) -> usize
        ensures { result ≡ alike_in book.now self.now }
    {
        count_alike(
            book,
            self.table,
            self.keys.as_slice(),
            self.peer,
            self.other,
        )
    }

    /// Whether the peers teach one another's rows, as a book has them. Looks each key of the sample
    /// up twice at most, and takes no memory.
    pub fn is_proved(&self, book: &Book) -> bool
        ensures { result ≡ is_proved book.now self.now }
    {
        prove_mesh(self.own, self.learned, self.heard, self.count_alike(book))
    }
}

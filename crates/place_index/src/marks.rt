//! Marks of hashes.
ghost use Rattle.std.specs.Prelude.{◌≡◌, ℕ, true, ◌%◌};
ghost use Rattle.place_index.specs.Marks.{is_marked};

use agg_types::NoMemory;
use hash_windows::modulo;
use std::alloc::Global;

/// Marks of hashes, by classes: a hash is marked once one of its class was. With no classes all are
/// marked once one was.
#[derive(Drop)]
pub(crate) struct Marks {
    classes: u32,
    // Whether each class is marked.
    flags: Vec<bool>,
    // Whether a class without a flag is.
    beyond: bool,
}

impl Marks {
    /// Nothing is marked, and there are no classes. Takes no memory.
    pub(crate) fn new(alloc: Global) -> Marks {
        Marks {
            classes: 0,
            flags: Vec::new(alloc),
            beyond: false,
        }
    }

    /// Nothing is marked, and there are so many classes: a power of two.
    pub(crate) fn with_classes(alloc: Global, classes: u32) -> Result<Marks, NoMemory> {
        Ok(Marks {
            classes,
            flags: Vec::from_elem(alloc, false, classes as usize)?,
            beyond: false,
        })
    }

    /// Whether a hash is marked.
    #[inline]
    pub(crate) fn has(&self, hash: u32) -> bool
        ensures { result ≡ is_marked self.now hash }
    {
        match self.flags.get(modulo(hash, self.classes) as usize) {
            Some(flag) => *flag,
            None => self.beyond,
        }
    }

    /// Marks a hash.
    pub(crate) fn mark(&mut self, hash: u32)
        ensures this { is_marked self.new hash ≡ true }
        ensures others { (other : ℕ) → is_marked self.old other ≡ true
            → is_marked self.new other ≡ true }
    {
        match self.flags.get_mut(modulo(hash, self.classes) as usize) {
            Some(flag) => *flag = true,
            None => self.beyond = true,
        }
    }
}

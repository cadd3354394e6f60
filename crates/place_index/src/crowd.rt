//! The keys that found no free word.
ghost use Rattle.std.specs.Prelude.{◌≡◌, ◌≢◌, ℕ, Some, true, IsTrue, IfOk};
ghost use Rattle.std.specs.BTreeMap.{is_at};
ghost use Rattle.std.specs.Map.{lookup};
ghost use Rattle.place_index.specs.Crowd.{IsCrowded, AreMarked};

use crate::IndexKey;
use crate::marks::Marks;
use agg_types::NoMemory;
use std::alloc::Global;
use std::collections::BTreeMap;

/// How many classes of hashes there are at least and at most. A flag has a byte.
const LEAST_CLASSES: u32 = 1 << 8;

const MOST_CLASSES: u32 = 1 << 16;

/// So many classes are wanted for each key, so that few other keys have a marked one.
const CLASSES_A_KEY: usize = 16;

/// With more keys than so many their hashes aren't marked anew, which takes a look at each.
const MOST_RENEWED: usize = 1 << 14;

/// Keys with their places, in an ordered map. Beside it their hashes are marked, so that of most
/// keys which it doesn't have it tells that without a search.
#[derive(Drop)]
pub(crate) struct Crowd<K: Ord> {
    places: BTreeMap<K, usize>,
    marks: Marks,
    // How many hashes were marked since they were marked anew, and from how many on they are again.
    marked: usize,
    limit: usize,
}

impl<K: IndexKey> Crowd<K> {
    /// No keys. Takes no memory.
    pub(crate) fn new(alloc: Global) -> Crowd<K> {
        Crowd {
            places: BTreeMap::new(alloc),
            marks: Marks::new(alloc),
            marked: 0,
            limit: 0,
        }
    }

    /// The place of a key of this hash, if it has it.
    #[inline]
    pub(crate) fn get(&self, hash: u32, key: &K) -> Option<usize>
        ensures { (at : ℕ) → IsCrowded K.cmp self.now key.now hash at → result ≡ Some at }
    {
        if !self.marks.has(hash) {
            return None;
        }
        self.places.get(key).copied()
    }

    /// Takes up a key of this hash and its place, if there is memory for it.
    pub(crate) fn put(&mut self, alloc: Global, hash: u32, key: &K, at: usize) -> bool
        requires { hash ≡ K.hashed key.now }
        ensures has { IsTrue result → IsCrowded K.cmp self.new key.now (K.hashed key.now) at }
        ensures others { (k : K) (q : ℕ) → k ≢ key.now
            → IsCrowded K.cmp self.old k (K.hashed k) q
            → IsCrowded K.cmp self.new k (K.hashed k) q }
    {
        if !add(&mut self.places, alloc, key, at) {
            return false;
        }
        self.marks.mark(hash);
        self.marked = self.marked.saturating_add(1);
        if self.marked > self.limit {
            self.renew(alloc);
        }
        true
    }

    /// Takes a key out.
    pub(crate) fn remove(&mut self, key: &K)
        ensures { (k : K) (q : ℕ) → k ≢ key.now → IsCrowded K.cmp self.old k (K.hashed k) q
            → IsCrowded K.cmp self.new k (K.hashed k) q }
    {
        self.places.remove(key);
    }

    // Marks the hashes of its keys anew, in as many classes as these want, if there is memory for
    // it and they aren't too many.
    fn renew(&mut self, alloc: Global)
        ensures { (k : K) (q : ℕ) → IsCrowded K.cmp self.old k (K.hashed k) q
            → IsCrowded K.cmp self.new k (K.hashed k) q }
    {
        let keys = self.places.len();
        let classes = classes_for(keys);
        self.marked = keys;
        self.limit = keys.saturating_mul(2).max(classes as usize / 8);
        if keys > MOST_RENEWED {
            return;
        }
        if let Ok(marks) = marks_of(&self.places, alloc, classes) {
            self.marks = marks;
        }
    }
}

// How many classes so many keys want.
fn classes_for(keys: usize) -> u32 {
    let wanted = keys.saturating_mul(CLASSES_A_KEY);
    let mut classes = LEAST_CLASSES;
    for _ in 0..16u32 {
        if classes < MOST_CLASSES && (classes as usize) < wanted {
            classes = classes.saturating_mul(2);
        }
    }
    classes
}

// The marks of the hashes of these keys alone.
fn marks_of<K: IndexKey>(
    places: &BTreeMap<K, usize>,
    alloc: Global,
    classes: u32,
) -> Result<Marks, NoMemory>
    ensures { IfOk result (AreMarked K.cmp K.hashed places.now.entries) }
{
    let mut marks = Marks::with_classes(alloc, classes)?;
    for (key, _) in places.iter() {
        marks.mark(key.hash_of());
    }
    Ok(marks)
}

// Puts a key into the map, if there is memory for it.
fn add<K: IndexKey>(places: &mut BTreeMap<K, usize>, alloc: Global, key: &K, at: usize) -> bool
    ensures has { IsTrue result → lookup (is_at (K.cmp key.now)) places.new.entries ≡ Some at }
    ensures others { (k : K) → k ≢ key.now → lookup (is_at (K.cmp k)) places.new.entries
        ≡ lookup (is_at (K.cmp k)) places.old.entries }
{
    match key.again(alloc) {
        Ok(own) => places.insert(own, at).is_ok(),
        Err(_) => false,
    }
}

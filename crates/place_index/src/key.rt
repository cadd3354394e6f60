ghost use Rattle.std.specs.Prelude.{◌≡◌, ◌==◌, ℕ, Bool, true, length, IfOk};
ghost use Rattle.place_index.specs.Hash.{hash_of_bytes};
ghost use Rattle.place_index.specs.Blank.{one_empty};
ghost use Rattle.std.specs.declared.cmp.Ordering.TheVariants.{Equal};
ghost use Rattle.std.proofs.lemmas.Map.Lookups.{exact_bytes};

use agg_types::{Key, NoMemory};
use std::alloc::Global;

/// What an index asks of its keys: a hash, copies for the few keys that its ordered map holds, and
/// a blank key to stand in empty places.
///
/// Any function will do as the hash. Keys of one hash cost what an ordered map costs. The blank key
/// is a key as others: it may be laid down too.
pub trait IndexKey: Ord + Drop {
    /// The hash, as a function of the key.
    ghost hashed: { Self → ℕ };

    /// Whether a key is the blank one.
    ghost is_blank: { Self → Bool };

    /// The key's hash.
    fn hash_of(&self) -> u32
        ensures { result ≡ hashed self.now };

    /// The blank key. Takes no memory.
    fn blank() -> Self
        ensures { is_blank result ≡ true };

    /// Whether this is the blank key.
    fn is_blank(&self) -> bool
        ensures { result ≡ is_blank self.now };

    /// An equal key.
    fn again(&self, alloc: Global) -> Result<Self, NoMemory>
        ensures { IfOk result (λ key. key ≡ self.now) };

    /// Keys that compare as equal are the same.
    ghost exact: { (x y : Self) → Self.cmp x y ≡ Equal → x ≡ y };

    /// There is one blank key.
    ghost one: { (x y : Self) → is_blank x ≡ true → is_blank y ≡ true → x ≡ y };
}

// An odd number whose bits are in no order.
const ODD: u64 = 11400714819323198485;

// The state before the first byte.
const BEGIN: u64 = 14695981039346656037;

impl IndexKey for Key {
    ghost hashed = { hash_of_bytes };

    ghost is_blank = { λ bytes. length bytes == 0 };

    ghost exact = { exact_bytes };

    ghost one = { one_empty };

    fn hash_of(&self) -> u32 {
        let bytes = self.as_slice();
        let mut state = BEGIN;
        for byte in bytes {
            state = (state ^ u64::from(*byte)).wrapping_mul(ODD);
        }
        (state >> 32) as u32
    }

    #[inline]
    fn blank() -> Key {
        Key::empty()
    }

    #[inline]
    fn is_blank(&self) -> bool {
        self.as_slice().is_empty()
    }

    fn again(&self, alloc: Global) -> Result<Key, NoMemory> {
        self.duplicate(alloc)
    }
}

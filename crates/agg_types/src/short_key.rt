ghost use Rattle.std.specs.Prelude.{◌≡◌, ◌/◌, ◌^◌, ◌≤◌, MatchOption, false, length};
ghost use Rattle.std.specs.Cmp.Lexicographic.{slice_cmp};
ghost use Rattle.std.specs.Ordering.{nat_cmp, ordering_then, eq_by_cmp};
ghost use Rattle.agg_types.specs.Key.{is_short};

use std::cmp::Ordering;
use std::marker::Model;

/// How many bytes a short key has at most.
pub(crate) const SHORT: usize = 16;

/// A key of at most 16 bytes, which lie in the value itself, with zeros behind them.
///
/// Read as one number, the first byte the greatest, they are in the order of the bytes. Where two
/// numbers are equal, one key is the other with zeros behind it, and the shorter comes first.
#[derive(Drop)]
pub(crate) struct ShortKey {
    len: u8,
    bytes: [u8; SHORT],
}

impl Model for ShortKey {
    ghost use Rattle.std.specs.Prelude.{◌≡◌, ◌≤◌, List, ℕ, take, drop, replicate};

    ghost Value = { List ℕ };

    ghost view = { λ key. take key.len key.bytes };

    ghost invariant = { λ key. (key.len ≤ 16)
        × (drop key.len key.bytes ≡ drop key.len (replicate 16 0)) };
}

impl ShortKey {
    /// A key of these bytes, at most 16.
    pub(crate) fn copy(bytes: &[u8]) -> ShortKey
        requires { length bytes.now ≤ 16 }
        ensures { result ≡ bytes.now }
    {
        let mut padded = [0; SHORT];
        padded[..bytes.len()].copy_from_slice(bytes);
        ShortKey {
            len: bytes.len() as u8,
            bytes: padded,
        }
    }

    /// A key of these bytes, if they are at most 16.
    #[inline]
    pub(crate) fn of(bytes: &[u8]) -> Option<ShortKey>
        ensures { MatchOption result (is_short bytes.now ≡ false) (λ key. key ≡ bytes.now) }
    {
        if bytes.len() <= SHORT {
            return Some(ShortKey::copy(bytes));
        }
        None
    }

    /// An equal key.
    #[inline]
    pub(crate) fn duplicate(&self) -> ShortKey
        ensures { result ≡ self.now }
    {
        ShortKey {
            len: self.len,
            bytes: self.bytes,
        }
    }

    /// The key's bytes.
    #[inline]
    pub(crate) fn as_slice(&self) -> &[u8]
        ensures { result.now ≡ self.now }
    {
        &self.bytes[..self.len as usize]
    }

    /// The order of the keys' bytes.
    #[inline]
    pub(crate) fn order(&self, other: &ShortKey) -> Ordering
        ensures { result ≡ slice_cmp nat_cmp self.now other.now }
    {
        order(&self.bytes, &other.bytes, self.len.cmp(&other.len))
    }

    /// Whether the keys have the same bytes.
    #[inline]
    pub(crate) fn is(&self, other: &ShortKey) -> bool
        ensures { result ≡ eq_by_cmp (slice_cmp nat_cmp) self.now other.now }
    {
        same(&self.bytes, &other.bytes) && self.len == other.len
    }
}

// The order of 16 bytes each, and where they are the same, this one.
#[inline]
fn order(left: &[u8; SHORT], right: &[u8; SHORT], tie: Ordering) -> Ordering
    ensures { result ≡ ordering_then (slice_cmp nat_cmp left.now right.now) tie }
{
    compare(u128::from_be_bytes(*left), u128::from_be_bytes(*right), tie)
}

// Most keys differ in their first eight bytes, so these go first.
#[inline]
fn compare(number: u128, other: u128, tie: Ordering) -> Ordering
    ensures { result ≡ ordering_then (nat_cmp number other) tie }
{
    if front(number) < front(other) {
        return Ordering::Less;
    }
    if front(other) < front(number) {
        return Ordering::Greater;
    }
    number.cmp(&other).then(tie)
}

#[inline]
fn front(number: u128) -> u64
    ensures { result ≡ number / 2 ^ 64 }
{
    (number >> 64) as u64
}

#[inline]
fn same(left: &[u8; SHORT], right: &[u8; SHORT]) -> bool
    ensures { result ≡ eq_by_cmp (slice_cmp nat_cmp) left.now right.now }
{
    u128::from_be_bytes(*left) == u128::from_be_bytes(*right)
}

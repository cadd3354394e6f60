//! A part of the marks of a table, packed.

ghost use Rattle.std.specs.Prelude.{◌≡◌, ◌++◌, ◌∷◌, [], false, length, IfOk, IfSome};
ghost use Rattle.std.specs.List.{AllByRecursion};
ghost use Rattle.std.specs.Prelude.{MatchOption, OnErr, OnOk};
ghost use Rattle.pushed_keys.specs.Packed.{IsFrom, IsLast, IsWord, in_lists, lent, moment, moments};
ghost use Rattle.pushed_keys.specs.Packed.{with_puts};

use crate::least::Least;
use agg_types::NoMemory;
use std::alloc::Global;
use std::marker::Model;

/// How many marks a part has at most.
pub const PART: usize = 256;

/// What is added to the length of a key that isn't in the set. No key is as long.
pub const LEFT: u16 = 32_768;

// Half of how far a moment may be after the base, in ms.
const HALF: u64 = 2_147_483_648;

/// Marks that are packed: of each the bytes of its key and six more.
///
/// Contracts see the list of the marks.
#[derive(Drop)]
pub struct Part {
    // The bytes of the keys, one behind the other.
    bytes: Vec<u8>,
    // How many bytes each key has, and in the top bit whether it isn't in the set.
    lens: Vec<u16>,
    // How long after the base each was last put, in ms.
    puts: Vec<u32>,
    // A moment, in ms. The moments of a part lie within 49 days of it.
    base: u64,
    // Up to which moments none was put.
    least: Least,
    // Where the bytes of the last key begin.
    last: usize,
}

impl Model for Part {
    ghost use Rattle.std.specs.Prelude.{List};
    ghost use Rattle.pushed_keys.specs.declared.told.Mark.{Mark};

    ghost Value = { List Mark };

    ghost use Rattle.pushed_keys.specs.Packed.{moments, unpacked, IsPart};

    ghost view = { λ part. unpacked part.bytes.items part.lens.items
        (moments part.base part.puts.items) };

    ghost invariant = { λ part. IsPart part.bytes.items part.lens.items
        (moments part.base part.puts.items) part.least part.last };
}

impl Part {
    /// No marks. Takes no memory.
    pub fn new(alloc: Global) -> Part
        ensures { result ≡ [] }
    {
        Part {
            bytes: Vec::new(alloc),
            lens: Vec::new(alloc),
            puts: Vec::new(alloc),
            base: 0,
            least: Least::NONE,
            last: 0,
        }
    }

    /// How many marks it has.
    pub fn len(&self) -> usize
        ensures { result ≡ length self.now }
    {
        self.lens.len()
    }

    /// Whether there is room for a moment, in ms, beside those of its marks.
    #[inline]
    pub fn has_room(&self, put: u64) -> bool {
        after_base(base_for(self.lens.is_empty(), self.base, put), put).is_some()
    }

    /// Adds a mark behind the others. After `NoMemory` they are as they were. A key of 32,768 bytes
    /// meets it too, but no key of the peers protocol is that long; and so does a moment for which
    /// there is no room.
    pub fn push(&mut self, key: &[u8], put: u64, is_in: bool) -> Result<(), NoMemory>
        ensures ok { OnOk result (self.new
            ≡ self.old ++ record { key = key.now; put = put; is_in = is_in } ∷ []) }
        ensures err { OnErr result (self.new ≡ self.old) }
    {
        let Some(len) = word_of(key.len(), is_in) else {
            return Err(NoMemory);
        };
        let base = base_for(self.lens.is_empty(), self.base, put);
        let Some(after) = after_base(base, put) else {
            return Err(NoMemory);
        };
        let from = self.bytes.len();
        append(
            &mut self.bytes,
            &mut self.lens,
            &mut self.puts,
            key,
            len,
            after,
        )?;
        self.base = base;
        self.least = self.least.with(is_in, put);
        self.last = from;
        Ok(())
    }

    /// The same marks, in no more room than they need.
    pub fn copied(&self) -> Result<Part, NoMemory>
        ensures { IfOk result (λ part. part ≡ self.now) }
    {
        Ok(Part {
            bytes: self.bytes.clone()?,
            lens: self.lens.clone()?,
            puts: self.puts.clone()?,
            base: self.base,
            least: self.least,
            last: self.last,
        })
    }

    /// The same keys, with other moments, of which none is before these. A moment for which there
    /// is no room meets `NoMemory` too.
    pub fn renewed(&self, puts: &[u64], least: Least) -> Result<Part, NoMemory>
        requires many { length puts.now ≡ length self.now }
        requires late { AllByRecursion (λ mark. IsFrom least mark) (with_puts self.now puts.now) }
        ensures { IfOk result (λ part. part ≡ with_puts self.now puts.now) }
    {
        let mut part = self.copied()?;
        part.puts = all_after(*part.puts.allocator(), part.base, puts)?;
        part.least = least;
        Ok(part)
    }

    /// Drops the marks, and keeps the room.
    pub fn clear(&mut self)
        ensures { self.new ≡ [] }
    {
        self.bytes.clear();
        self.lens.clear();
        self.puts.clear();
        self.least = Least::NONE;
        self.last = 0;
    }

    /// Moments, in ms, before which none of its keys was put.
    #[inline]
    pub fn least(&self) -> Least
        ensures { AllByRecursion (λ mark. IsFrom result mark) self.now }
    {
        self.least
    }

    /// The key of its last mark, if it has one.
    #[inline]
    pub fn last_key(&self) -> &[u8]
        ensures { IsLast result.now self.now }
    {
        self.bytes
            .as_slice()
            .split_at(self.last.min(self.bytes.len()))
            .1
    }

    /// Lends the bytes of the keys, their lengths and their moments.
    #[inline]
    pub fn lend(&self) -> Lists<'_>
        ensures { in_lists result ≡ self.now }
    {
        Lists {
            bytes: self.bytes.as_slice(),
            lens: self.lens.as_slice(),
            puts: self.puts.as_slice(),
            base: self.base,
        }
    }
}

// Appends a key's bytes, its word, and how long after the base it was put. After `NoMemory` the
// lists are as they were.
#[inline]
fn append(
    bytes: &mut Vec<u8>,
    lens: &mut Vec<u16>,
    puts: &mut Vec<u32>,
    key: &[u8],
    len: u16,
    after: u32,
) -> Result<(), NoMemory>
    ensures bytes { OnOk result (bytes.new.items ≡ bytes.old.items ++ key.now) }
    ensures lens { OnOk result (lens.new.items ≡ lens.old.items ++ len ∷ []) }
    ensures puts { OnOk result (puts.new.items ≡ puts.old.items ++ after ∷ []) }
    ensures err { OnErr result ((bytes.new.items ≡ bytes.old.items)
        × (lens.new.items ≡ lens.old.items) × (puts.new.items ≡ puts.old.items)) }
{
    lens.reserve(1)?;
    puts.reserve(1)?;
    bytes.extend_from_slice(key)?;
    lens.push(len).unwrap();
    puts.push(after).unwrap();
    Ok(())
}

/// A key's length, and whether it is in the set, in one word; none where the key is too long.
pub fn word_of(len: usize, is_in: bool) -> Option<u16>
    ensures { IfSome result (λ word. IsWord word len is_in) }
{
    let Ok(word) = u16::try_from(len) else {
        return None;
    };
    if word >= LEFT {
        return None;
    }
    if is_in {
        return Some(word);
    }
    Some(word + LEFT)
}

// The base of a part with a moment more, in ms: where it has none, the moment stands about halfway.
fn base_for(is_empty: bool, base: u64, put: u64) -> u64
    ensures { is_empty ≡ false → result ≡ base }
{
    if is_empty {
        put.saturating_sub(HALF)
    } else {
        base
    }
}

// How long a moment, in ms, is after the base; none where it is too long, or before it.
fn after_base(base: u64, put: u64) -> Option<u32>
    ensures { IfSome result (λ after. moment base after ≡ put) }
{
    let after = put.checked_sub(base)?;
    u32::try_from(after).ok()
}

// How long these moments, in ms, are after the base.
fn all_after(alloc: Global, base: u64, puts: &[u64]) -> Result<Vec<u32>, NoMemory>
    ensures { IfOk result (λ afters. moments base afters.items ≡ puts.now) }
{
    let mut afters = Vec::with_capacity(alloc, puts.len())?;
    for put in puts {
        let Some(after) = after_base(base, *put) else {
            return Err(NoMemory);
        };
        afters.push(after)?;
    }
    Ok(afters)
}

/// The lists of a part that is lent, without some marks at their front.
#[derive(Clone, Copy)]
pub struct Lists<'a> {
    pub bytes: &'a [u8],
    pub lens: &'a [u16],
    pub puts: &'a [u32],
    pub base: u64,
}

/// A mark that is lent: a key's bytes, the moment, in ms, at which it was last put, and whether it
/// is in the set.
#[derive(Clone, Copy)]
pub struct Lent<'a> {
    pub key: &'a [u8],
    pub put: u64,
    pub is_in: bool,
}

impl<'a> Lists<'a> {
    /// No marks.
    pub fn none() -> Lists<'a>
        ensures { in_lists result ≡ [] }
    {
        Lists {
            bytes: &[],
            lens: &[],
            puts: &[],
            base: 0,
        }
    }

    /// The first mark, and those behind it.
    #[inline]
    pub fn split_first(self) -> Option<(Lent<'a>, Lists<'a>)>
        ensures { MatchOption result (in_lists self.entry ≡ [])
            (λ found. in_lists self.entry ≡ lent found.0 ∷ in_lists found.1) }
    {
        let [len, lens @ ..] = self.lens else {
            return None;
        };
        let [put, puts @ ..] = self.puts else {
            return None;
        };
        let (key, bytes) = self
            .bytes
            .split_at(self.bytes.len().min((*len % LEFT) as usize));
        let mark = Lent {
            key,
            put: self.base.saturating_add(u64::from(*put)),
            is_in: *len < LEFT,
        };
        let base = self.base;
        Some((
            mark,
            Lists {
                bytes,
                lens,
                puts,
                base,
            },
        ))
    }
}

ghost use Rattle.std.specs.Prelude.{◌≡◌, [], IfOk, IsOk, MatchOption, false, true};
ghost use Rattle.std.proofs.Common.{rules};
ghost use Rattle.std.specs.Cmp.{partial_order_from_own_ties};
ghost use Rattle.std.specs.Cmp.Rules.{comparing};
ghost use Rattle.std.specs.Cmp.Lexicographic.{slice_cmp};
ghost use Rattle.std.specs.Ordering.{nat_cmp, as_partial_cmp, eq_by_cmp};
ghost use Rattle.agg_types.specs.Key.{is_short};

use crate::short_key::{SHORT, ShortKey};
use crate::{Items, NoMemory};
use std::alloc::Global;
use std::cmp::Ordering;
use std::fmt;
use std::marker::Model;

/// A key of a stick table: its bytes, as the peers protocol sends them.
///
/// Keys are ordered by their bytes, a prefix before what it begins. A key of up to 16 bytes lies in
/// the value itself and takes no memory beside it; a longer one lies in a block.
pub struct Key {
    form: Form,
}

// By hand, so that what drops it elsewhere proves nothing of its parts.
impl Drop for Key {
    fn drop(self) {
        let Key { form: _ } = self;
    }
}

const _: () = prove!(size_of::<Key>() == 24);

#[derive(Drop)]
enum Form {
    Short(ShortKey),
    Long(Box<Items<u8>>),
}

impl Model for Key {
    ghost use Rattle.std.specs.Prelude.{List, ℕ};

    ghost Value = { List ℕ };

    ghost use Rattle.agg_types.specs.Key.{form_bytes};

    ghost view = { λ key. form_bytes key.form };
}

impl Key {
    /// The key of no bytes. Takes no memory.
    pub fn empty() -> Key
        ensures { result ≡ [] }
    {
        Key {
            form: Form::Short(ShortKey::copy(&[])),
        }
    }

    /// A key of these bytes. `NoMemory`, where the block of a longer one was refused.
    pub fn copy(alloc: Global, bytes: &[u8]) -> Result<Key, NoMemory>
        ensures key { IfOk result (λ key. key ≡ bytes.now) }
        ensures short { is_short bytes.now ≡ true → IsOk result }
    {
        Ok(Key {
            form: Form::copy(alloc, bytes)?,
        })
    }

    /// An equal key. `NoMemory`, where the block of a longer one was refused.
    pub fn duplicate(&self, alloc: Global) -> Result<Key, NoMemory>
        ensures key { IfOk result (λ key. key ≡ self.now) }
        ensures short { is_short self.now ≡ true → IsOk result }
    {
        match self.short_copy() {
            Some(key) => Ok(key),
            None => Key::copy(alloc, self.as_slice()),
        }
    }

    /// An equal key, if it takes no memory: where this one has up to 16 bytes.
    #[inline]
    pub fn short_copy(&self) -> Option<Key>
        ensures { MatchOption result (is_short self.now ≡ false) (λ key. key ≡ self.now) }
    {
        let short = match &self.form {
            Form::Short(key) => key.duplicate(),
            Form::Long(bytes) => ShortKey::of(bytes.as_slice())?,
        };
        Some(Key {
            form: Form::Short(short),
        })
    }

    /// Whether a copy of the key takes no memory: it has up to 16 bytes.
    #[inline]
    pub fn is_short(&self) -> bool
        ensures { result ≡ is_short self.now }
    {
        self.as_slice().len() <= SHORT
    }

    /// The key's bytes.
    #[inline]
    pub fn as_slice(&self) -> &[u8]
        ensures { result.now ≡ self.now }
    {
        match &self.form {
            Form::Short(key) => key.as_slice(),
            Form::Long(bytes) => bytes.as_slice(),
        }
    }
}

impl Form {
    ghost use Rattle.agg_types.specs.Key.{form_bytes};

    fn copy(alloc: Global, bytes: &[u8]) -> Result<Form, NoMemory>
        ensures bytes { IfOk result (λ form. form_bytes form ≡ bytes.now) }
        ensures short { is_short bytes.now ≡ true → IsOk result }
    {
        if let Some(short) = ShortKey::of(bytes) {
            return Ok(Form::Short(short));
        }
        Ok(Form::Long(Box::new(alloc, Items::copy(alloc, bytes)?)?))
    }
}

impl fmt::Debug for Key {
    fn fmt<W: fmt::Write>(&self, f: &mut fmt::Formatter<W>) -> fmt::Result {
        f.debug_tuple("Key").field(&self.as_slice()).finish()
    }
}

impl PartialEq for Key {
    ghost eq = { eq_by_cmp (slice_cmp nat_cmp) };

    ghost laws = { Prim.search (comparing, rules) };

    #[inline]
    fn eq(&self, other: &Key) -> bool {
        match (&self.form, &other.form) {
            (Form::Short(own), Form::Short(others)) => own.is(others),
            _ => self.as_slice() == other.as_slice(),
        }
    }
}

impl Eq for Key {
    ghost laws = { Prim.search (comparing, rules) };
}

impl PartialOrd for Key {
    ghost partial_cmp = { as_partial_cmp (slice_cmp nat_cmp) };

    ghost laws = { partial_order_from_own_ties (Prim.search (comparing, rules))
        (Prim.search (comparing, rules)) };

    fn partial_cmp(&self, other: &Key) -> Option<Ordering> {
        Some(self.cmp(other))
    }
}

impl Ord for Key {
    ghost cmp = { slice_cmp nat_cmp };

    ghost total = { Prim.search (comparing, rules) };

    ghost matches_partial_cmp = { Prim.search (comparing, rules) };

    ghost matches_eq = { Prim.search (comparing, rules) };

    #[inline]
    fn cmp(&self, other: &Key) -> Ordering {
        match (&self.form, &other.form) {
            (Form::Short(own), Form::Short(others)) => own.order(others),
            _ => self.as_slice().cmp(&other.as_slice()),
        }
    }
}

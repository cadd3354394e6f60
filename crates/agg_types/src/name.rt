ghost use Rattle.std.specs.Prelude.{◌≡◌, IfOk};
ghost use Rattle.std.specs.List.{list_all};
ghost use Rattle.std.specs.Str.{bytes_eq};
ghost use Rattle.agg_types.specs.Name.{is_name, is_printable};

use crate::limits::LONGEST_NAME;
use crate::{Items, Named, NoMemory};
use std::alloc::Global;
use std::marker::Model;

/// The name of the collector, a peer, a table, a filter or a ranked list.
#[derive(Debug)]
pub struct Name {
    bytes: Items<u8>,
}

// By hand, so that what drops it elsewhere proves nothing of its parts.
impl Drop for Name {
    fn drop(self) {
        let Name { bytes: _ } = self;
    }
}

impl Model for Name {
    ghost use Rattle.std.specs.Prelude.{List, ℕ};

    ghost Value = { List ℕ };

    ghost view = { λ name. name.bytes };
}

impl Name {
    /// A name of these bytes, which `is_valid` has not judged yet.
    pub fn copy(alloc: Global, bytes: &[u8]) -> Result<Name, NoMemory>
        ensures { IfOk result (λ name. name ≡ bytes.now) }
    {
        Ok(Name {
            bytes: Items::copy(alloc, bytes)?,
        })
    }

    /// An equal name.
    pub fn duplicate(&self, alloc: Global) -> Result<Name, NoMemory>
        ensures { IfOk result (λ name. name ≡ self.now) }
    {
        Name::copy(alloc, self.as_slice())
    }

    /// The name's bytes.
    pub fn as_slice(&self) -> &[u8]
        ensures { result.now ≡ self.now }
    {
        self.bytes.as_slice()
    }

    /// Whether two names have the same bytes.
    pub fn is(&self, bytes: &[u8]) -> bool
        ensures { result ≡ bytes_eq self.now bytes.now }
    {
        self.as_slice() == bytes
    }

    /// Whether it may name something: 1 to 128 bytes, each from 33 to 126.
    pub fn is_valid(&self) -> bool
        ensures { result ≡ is_name self.now }
    {
        is_name(self.as_slice())
    }
}

impl Named for Name {
    ghost name_of = { λ name. name };

    fn name(&self) -> &[u8] {
        self.as_slice()
    }

    fn again(&self, alloc: Global) -> Result<Name, NoMemory> {
        self.duplicate(alloc)
    }
}

/// Whether these bytes may be a name: 1 to 128 bytes, each from 33 to 126.
pub fn is_name(bytes: &[u8]) -> bool
    ensures { result ≡ is_name bytes.now }
{
    let printable = all_printable(bytes);
    !bytes.is_empty() && bytes.len() <= LONGEST_NAME && printable
}

fn all_printable(bytes: &[u8]) -> bool
    ensures { result ≡ list_all is_printable bytes.now }
{
    bytes.iter().all(|byte| is_printable(*byte))
}

fn is_printable(byte: u8) -> bool
    ensures { result ≡ is_printable byte }
{
    33 <= byte && byte <= 126
}

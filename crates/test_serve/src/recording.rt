//! A connection whose bytes are known: what a peer or an admin sends stands in one list.

ghost use Rattle.std.specs.Prelude.{◌≡◌, ◌≤◌, length, take};

use serve::{Came, ReadFailed, Source};

/// Bytes that are sent, as many at each read as there is room for, and then the end. Contracts know
/// which of them were given.
#[derive(Drop)]
pub struct Recording<'a> {
    bytes: &'a [u8],
    given: usize,
    reads: u64,
    ghost within: { given ≤ length bytes.now },
}

impl<'a> Recording<'a> {
    /// A recording of which nothing was read.
    pub fn new(bytes: &'a [u8]) -> Recording<'a>
        ensures bytes { result.bytes.now ≡ bytes.now }
        ensures given { result.given ≡ 0 }
        ensures reads { result.reads ≡ 0 }
    {
        Recording {
            bytes,
            given: 0,
            reads: 0,
        }
    }

    /// The bytes that were given.
    pub fn given(&self) -> &'a [u8]
        ensures { result.now ≡ take self.now.given self.now.bytes.now }
    {
        &self.bytes[..self.given]
    }
}

impl<'a> Source for Recording<'a> {
    ghost use Rattle.std.specs.Prelude.{Some, take};

    ghost reads = { λ s. s.reads };

    ghost failed = { λ s. 0 };

    ghost given = { λ s. Some (take s.given s.bytes.now) };

    fn read(&mut self, buffer: &mut [u8]) -> Result<Came, ReadFailed> {
        self.reads += 1;
        let count = (self.bytes.len() - self.given).min(buffer.len());
        if count == 0 {
            return Ok(Came::End);
        }
        let next = self.given + count;
        buffer[..count].copy_from_slice(&self.bytes[self.given..next]);
        self.given = next;
        Ok(Came::Bytes(count))
    }
}

//! The line that hasn't ended.

ghost use Rattle.std.specs.Prelude.{◌≡◌, ◌++◌, ℕ, List, [], take, drop, OnOk, OnErr};
ghost use Rattle.admin_worker.specs.Commanding.{kept_of, text_byte};

use agg_types::NoMemory;
use agg_types::limits::LONGEST_COMMAND_LINE;
use bytes::BytesMut;
use std::alloc::Global;

/// A line that hasn't ended, of which no more is kept than a command may have and one byte that
/// shows that it is too long: CRs behind it aren't counted.
#[derive(Drop)]
pub struct Line {
    bytes: BytesMut,
}

impl Line {
    /// No byte of a line.
    pub fn new(alloc: Global) -> Line
        ensures { result.bytes.items ≡ [] }
    {
        Line {
            bytes: BytesMut::new(alloc),
        }
    }

    /// What is kept of it.
    pub fn as_slice(&self) -> &[u8]
        ensures { result.now ≡ self.now.bytes.items }
    {
        self.bytes.as_slice()
    }

    /// Adds bytes of the line. After NoMemory it is as it was.
    pub fn add(&mut self, bytes: &[u8]) -> Result<(), NoMemory>
        ensures ok { OnOk result ((line : List ℕ) → self.old.bytes.items ≡ kept_of line
            → self.new.bytes.items ≡ kept_of (line ++ bytes.now)) }
        ensures err { OnErr result (self.new.bytes.items ≡ self.old.bytes.items) }
    {
        let len = self.bytes.len();
        if len > LONGEST_COMMAND_LINE {
            return Ok(());
        }
        let (front, behind) = parted_at(bytes, LONGEST_COMMAND_LINE - len);
        self.bytes.extend_from_slice(front)?;
        let Some(byte) = text_byte(behind) else {
            return Ok(());
        };
        if self.bytes.extend_from_slice(&[byte]).is_err() {
            self.bytes.truncate(len);
            return Err(NoMemory);
        }
        Ok(())
    }

    /// Begins the next line.
    pub fn clear(&mut self)
        ensures { self.new.bytes.items ≡ [] }
    {
        self.bytes.clear();
    }
}

// The first bytes, this many or all, and what stands behind them.
#[tactic(auto, using(crate::proofs::Kept::parting_at))]
fn parted_at(bytes: &[u8], count: usize) -> (&[u8], &[u8])
    ensures front { result.0.now ≡ take count bytes.now }
    ensures behind { result.1.now ≡ drop count bytes.now }
{
    if count < bytes.len() {
        bytes.split_at(count)
    } else {
        (bytes, b"")
    }
}

// The first byte that is no CR, if there is one.
fn text_byte(bytes: &[u8]) -> Option<u8>
    ensures { result ≡ text_byte bytes.now }
{
    bytes.iter().copied().find(|byte| *byte != b'\r')
}

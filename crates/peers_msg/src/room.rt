//! Blocks that a feed keeps from piece to piece, so that a short piece takes none of its own, and
//! no block is cleared anew while pieces are alike.

ghost use Rattle.std.specs.Prelude.{◌≡◌, []};

use crate::entry::Entry;
use bytes::BytesMut;
use std::alloc::Global;
use std::mem;

/// How many bytes a block has at most that is kept whatever lay in it.
const MOST_BYTES: usize = 4096;

/// How many bytes one has at most that is kept because much of it was used.
const MOST_USED: usize = 1 << 16;

/// For how many messages a list has room at most that is kept.
const MOST_ENTRIES: usize = 128;

/// Blocks for the next piece. What lies in them counts for nothing.
#[derive(Debug, Drop)]
pub(crate) struct Room {
    front: BytesMut,
    rest: BytesMut,
    entries: Vec<Entry>,
}

impl Room {
    /// No block yet.
    pub(crate) fn new(alloc: Global) -> Room {
        Room {
            front: BytesMut::new(alloc),
            rest: BytesMut::new(alloc),
            entries: Vec::new(alloc),
        }
    }

    /// A block for the bytes that were kept before the piece.
    pub(crate) fn take_front(&mut self) -> BytesMut
        ensures { result.items ≡ [] }
    {
        taken(&mut self.front)
    }

    /// A block for the bytes behind the messages.
    pub(crate) fn take_rest(&mut self) -> BytesMut
        ensures { result.items ≡ [] }
    {
        taken(&mut self.rest)
    }

    /// A list for the messages.
    pub(crate) fn take_entries(&mut self) -> Vec<Entry>
        ensures { result.items ≡ [] }
    {
        let alloc = *self.entries.allocator();
        let mut entries = mem::replace(&mut self.entries, Vec::new(alloc));
        entries.clear();
        entries
    }

    /// Keeps blocks that are done with. Large ones go, but those of which a quarter was used: the
    /// next piece is likely as long.
    pub(crate) fn put_back(&mut self, front: BytesMut, bytes: BytesMut, entries: Vec<Entry>) {
        if is_kept(&front) {
            self.front = front;
        }
        if is_kept(&bytes) {
            self.rest = bytes;
        }
        if entries.capacity() <= MOST_ENTRIES {
            self.entries = entries;
        }
    }
}

/// Whether a block is kept.
fn is_kept(block: &BytesMut) -> bool {
    let room = block.capacity();
    room <= MOST_BYTES || (room <= MOST_USED && block.len() >= room / 4)
}

/// Takes a block out, emptied.
fn taken(block: &mut BytesMut) -> BytesMut
    ensures { result.items ≡ [] }
{
    let alloc = *block.allocator();
    let mut block = mem::replace(block, BytesMut::new(alloc));
    block.clear();
    block
}

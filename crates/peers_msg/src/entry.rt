//! The messages of a piece, as its bytes hold them.

ghost use Rattle.std.specs.Prelude.{◌≡◌, List, [], ℕ, take, drop, IfOk};
ghost use Rattle.peers_msg.specs.Lent.{entry_message, as_message};

use crate::{Definition, Message};
use agg_types::NoMemory;
use bytes::Bytes;
use std::alloc::Global;

/// A message of a piece. Of an update it has where its bytes lie, so that it is small, and made
/// and dropped at no cost.
#[derive(Debug, Drop)]
pub(crate) enum Entry {
    Request,
    Finished,
    Partial,
    Confirm,
    Heartbeat,
    ProtocolError,
    SizeError,
    Update {
        id: Option<u32>,
        life: Option<u32>,
        /// How many bytes the key and the values have.
        len: u32,
        /// Where they begin among the piece's bytes.
        start: usize,
    },
    /// A definition is large, and rare.
    Define(Box<Definition>),
    Switch(u64),
    Acked {
        id: u64,
        last: u32,
    },
    Other {
        class: u8,
        kind: u8,
    },
}

/// A message of a piece that was read, which stands for the `Message` of the same name; its bytes
/// are the piece's.
#[derive(Clone, Copy, Debug)]
pub enum LentMessage<'a> {
    /// The sender asks for all of the receiver's tables.
    Request,
    /// The sender has sent all that was asked for.
    Finished,
    /// The sender has sent what it could of what was asked for.
    Partial,
    /// The end of a resync is confirmed.
    Confirm,
    /// The sender is still there.
    Heartbeat,
    /// The sender could not read what it got.
    ProtocolError,
    /// The sender got a message above its limit.
    SizeError,
    /// An entry of the table in force.
    Update {
        /// The update's id; `None` stands for the one after the last.
        id: Option<u32>,
        /// The remaining life in milliseconds of a timed update.
        life: Option<u32>,
        /// The key and the values, as they were sent.
        rest: &'a [u8],
    },
    /// A table's definition, which also puts it in force.
    Define(&'a Definition),
    /// Puts the table with this sender's table id in force.
    Switch(u64),
    /// The receiver of a table's updates has seen them up to the id `last`.
    Acked {
        /// The table's id, as its sender gave it.
        id: u64,
        /// The id of the last update that was received.
        last: u32,
    },
    /// A message of any other class and type, whose payload was skipped.
    Other {
        /// The class byte.
        class: u8,
        /// The type byte.
        kind: u8,
    },
}

impl Entry {
    /// What the entry says over the piece's bytes.
    #[inline]
    pub(crate) fn lend<'a>(&'a self, bytes: &'a [u8]) -> LentMessage<'a>
        ensures { as_message result ≡ entry_message bytes.now self.now }
    {
        match self {
            Entry::Update {
                id,
                life,
                len,
                start,
            } => LentMessage::Update {
                id: *id,
                life: *life,
                rest: part(bytes, *start, *len as usize),
            },
            Entry::Request => LentMessage::Request,
            Entry::Finished => LentMessage::Finished,
            Entry::Partial => LentMessage::Partial,
            Entry::Confirm => LentMessage::Confirm,
            Entry::Heartbeat => LentMessage::Heartbeat,
            Entry::ProtocolError => LentMessage::ProtocolError,
            Entry::SizeError => LentMessage::SizeError,
            Entry::Define(definition) => LentMessage::Define(&**definition),
            Entry::Switch(id) => LentMessage::Switch(*id),
            Entry::Acked { id, last } => LentMessage::Acked {
                id: *id,
                last: *last,
            },
            Entry::Other { class, kind } => LentMessage::Other {
                class: *class,
                kind: *kind,
            },
        }
    }

    /// The same as a message of its own, which shares the piece's bytes.
    pub(crate) fn to_message(&self, alloc: Global, bytes: &Bytes) -> Result<Message, NoMemory>
        ensures { IfOk result (λ message. message ≡ entry_message bytes.now self.now) }
    {
        Ok(match self {
            Entry::Update {
                id,
                life,
                len,
                start,
            } => Message::Update {
                id: *id,
                life: *life,
                rest: cut(bytes, *start, *len as usize)?,
            },
            Entry::Request => Message::Request,
            Entry::Finished => Message::Finished,
            Entry::Partial => Message::Partial,
            Entry::Confirm => Message::Confirm,
            Entry::Heartbeat => Message::Heartbeat,
            Entry::ProtocolError => Message::ProtocolError,
            Entry::SizeError => Message::SizeError,
            Entry::Define(definition) => Message::Define(duplicate(alloc, definition)?),
            Entry::Switch(id) => Message::Switch(*id),
            Entry::Acked { id, last } => Message::Acked {
                id: *id,
                last: *last,
            },
            Entry::Other { class, kind } => Message::Other {
                class: *class,
                kind: *kind,
            },
        })
    }
}

/// So many bytes from a place on, as far as there are any.
#[inline]
fn part(bytes: &[u8], start: usize, len: usize) -> &[u8]
    ensures { result.now ≡ take len (drop start bytes.now) }
{
    let rest = from(bytes, start);
    if len <= rest.len() {
        &rest[..len]
    } else {
        rest
    }
}

/// The bytes from a place on.
#[inline]
fn from(bytes: &[u8], start: usize) -> &[u8]
    ensures { result.now ≡ drop start bytes.now }
{
    if start <= bytes.len() {
        &bytes[start..]
    } else {
        &[]
    }
}

/// So many bytes from a place on, as far as there are any, which share memory with the others.
fn cut(bytes: &Bytes, start: usize, len: usize) -> Result<Bytes, NoMemory>
    ensures { IfOk result (λ part. part ≡ take len (drop start bytes.now)) }
{
    let mut part = bytes.clone()?;
    if start <= part.len() {
        part.advance(start);
    } else {
        part.clear();
    }
    part.truncate(len);
    Ok(part)
}

/// An equal definition.
fn duplicate(alloc: Global, definition: &Definition) -> Result<Definition, NoMemory>
    ensures { IfOk result (λ copied. copied ≡ definition.now) }
{
    Ok(Definition {
        id: definition.id,
        name: definition.name.clone()?,
        kind: definition.kind,
        len: definition.len,
        bits: definition.bits,
        expiry: definition.expiry,
        periods: definition.periods.duplicate(alloc)?,
        arrays: definition.arrays.duplicate(alloc)?,
    })
}

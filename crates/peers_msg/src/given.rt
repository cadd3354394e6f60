//! What a piece of a stream gives.

ghost use Rattle.std.specs.Prelude.{◌≡◌, ◌+◌, ◌<◌, [], length, map, slice_get, None, Some, IfOk};
ghost use Rattle.std.specs.Option.{option_map};
ghost use Rattle.agg_types.specs.declared.limits.TheConstants.{LONGEST_PAYLOAD};
ghost use Rattle.peers_msg.specs.Decoded.{IsWireFault};
ghost use Rattle.peers_msg.specs.DecoderState.{IsKept};
ghost use Rattle.peers_msg.specs.Kinds.{longest_head};
ghost use Rattle.peers_msg.specs.Lent.{entry_message, as_message};

use crate::entry::{Entry, LentMessage};
use crate::{Message, WireCause};
use agg_types::{Items, NoMemory};
use bytes::{Bytes, BytesMut};
use std::alloc::Global;
use std::marker::Model;

/// What a piece gives: the messages that are whole with it, the fault behind them, if one stands
/// there, and else the bytes that are no whole message yet.
#[derive(Debug, Drop)]
pub struct Given {
    /// The bytes that were read, among which those of each update lie.
    bytes: BytesMut,
    entries: Items<Entry>,
    fault: Option<WireCause>,
    rest: BytesMut,
}

/// The parts of what a piece gave.
#[derive(Drop)]
pub(crate) struct Parts {
    pub(crate) fault: Option<WireCause>,
    pub(crate) rest: BytesMut,
    pub(crate) bytes: BytesMut,
    pub(crate) entries: Vec<Entry>,
}

impl Model for Given {
    ghost use Rattle.peers_msg.specs.Message.{Reading};
    ghost use Rattle.std.specs.Prelude.{map};
    ghost use Rattle.peers_msg.specs.DecoderState.{IsKept};
    ghost use Rattle.peers_msg.specs.Lent.{entry_message};

    ghost Value = { Reading };

    ghost view = { λ given. record {
      messages = map (entry_message given.bytes.items) given.entries;
      fault = given.fault;
      rest = given.rest.items;
    } };

    ghost invariant = { λ given. IsKept given.rest.items given.fault };
}

impl Given {
    /// The messages of these entries and the bytes behind them, which hold no fault and are less
    /// than a message.
    pub(crate) fn whole(bytes: BytesMut, entries: Items<Entry>, rest: BytesMut) -> Given
        requires { length rest.items < longest_head + LONGEST_PAYLOAD }
        ensures { result ≡ record {
          messages = map (entry_message bytes.items) entries;
          fault = None;
          rest = rest.items;
        } }
    {
        Given {
            bytes,
            entries,
            fault: None,
            rest,
        }
    }

    /// The messages of these entries and the fault behind them.
    pub(crate) fn faulty(
        alloc: Global,
        bytes: BytesMut,
        entries: Items<Entry>,
        cause: WireCause,
    ) -> Given
        requires { IsWireFault cause }
        ensures { result ≡ record {
          messages = map (entry_message bytes.items) entries;
          fault = Some cause;
          rest = [];
        } }
    {
        Given {
            bytes,
            entries,
            fault: Some(cause),
            rest: BytesMut::new(alloc),
        }
    }

    /// How many messages are whole with the piece.
    pub fn len(&self) -> usize
        ensures { result ≡ length self.now.messages }
    {
        self.entries.len()
    }

    /// The message at a place of their order, if there are so many.
    #[inline]
    pub fn get(&self, at: usize) -> Option<LentMessage<'_>>
        ensures { option_map as_message result ≡ slice_get self.now.messages at }
    {
        let entry = self.entries.as_slice().get(at)?;
        Some(entry.lend(self.bytes.as_slice()))
    }

    /// The messages that are whole with the piece, in order, each of its own.
    pub(crate) fn to_messages(&self, alloc: Global) -> Result<Items<Message>, NoMemory>
        ensures { IfOk result (λ messages. messages ≡ self.now.messages) }
    {
        let bytes = Bytes::copy_from_slice(alloc, self.bytes.as_slice())?;
        to_messages(alloc, &bytes, self.entries.as_slice())
    }

    /// The fault behind the messages, if one stands there. It is never `NoMemory`.
    pub fn fault(&self) -> Option<WireCause>
        ensures { result ≡ self.now.fault }
    {
        self.fault
    }

    /// The fault behind the messages, the bytes that are kept, and what is done with.
    pub(crate) fn into_parts(self) -> Parts
        ensures fault { result.fault ≡ self.fault }
        ensures rest { result.rest.items ≡ self.rest }
        ensures kept { IsKept self.rest self.fault }
    {
        let Given {
            bytes,
            entries,
            fault,
            rest,
        } = self;
        Parts {
            fault,
            rest,
            bytes,
            entries: entries.into_vec(),
        }
    }
}

/// The messages of entries, in order.
fn to_messages(alloc: Global, bytes: &Bytes, entries: &[Entry]) -> Result<Items<Message>, NoMemory>
    ensures { IfOk result (λ messages. messages ≡ map (entry_message bytes.now) entries.now) }
{
    let mut messages = Vec::with_capacity(alloc, entries.len())?;
    for entry in entries {
        messages.push(entry.to_message(alloc, bytes)?)?;
    }
    Ok(Items::from_vec(messages))
}

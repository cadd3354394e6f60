//! Messages, one after the other.

ghost use Rattle.std.specs.Prelude.{◌≡◌, ◌+◌, ◌≤◌, ℕ, List, [], length, take, drop, IfOk};
ghost use Rattle.std.specs.Prelude.{box_value};
ghost use Rattle.agg_types.specs.declared.limits.TheConstants.{LONGEST_PAYLOAD};
ghost use Rattle.peers_msg.specs.Lent.{entry_message, define_of, GivesEntry};
ghost use Rattle.peers_msg.specs.Message.{control_of, error_of, table_of, message_of, first_of};
ghost use Rattle.peers_msg.specs.Message.{reading_of};
ghost use Rattle.peers_msg.specs.Payload.{update_of, switch_of, acked_of};
ghost use Rattle.peers_msg.specs.Decoded.{IsFirst};

use crate::entry::Entry;
use crate::framing::{Head, head_of};
use crate::given::Given;
use crate::kinds::*;
use crate::payload::{acked_of, read_definition, switch_of, update_of};
use crate::{Definition, WireCause};
use agg_types::{Items, NoMemory};
use bytes::{Bytes, BytesMut};
use std::alloc::Global;

/// How many bytes a message has at least for which room is made before it is read. An update of few
/// columns has four times as many. Less room, in blocks of 32 KB, left holes on the heap that no
/// segment of rows fits into: a key then took 40 to 60 bytes more.
const FEW_BYTES: usize = 4;

/// For how many messages room is made at once at most: 128 KB.
const MOST_EXPECTED: usize = 4096;

/// How many bytes of the next piece have room behind those that are kept, so that a short piece
/// takes none of its own.
const SHORT_PIECE: usize = 256;

/// The message of a type in the control class.
#[tactic(auto, unfolding(crate::specs::Message::control_of))]
fn control(kind: u8) -> Entry
    ensures { (bytes : List ℕ) → entry_message bytes result ≡ control_of kind }
{
    match kind {
        RESYNC_REQUEST => Entry::Request,
        RESYNC_FINISHED => Entry::Finished,
        RESYNC_PARTIAL => Entry::Partial,
        RESYNC_CONFIRM => Entry::Confirm,
        HEARTBEAT => Entry::Heartbeat,
        _ => Entry::Other {
            class: CONTROL_CLASS,
            kind,
        },
    }
}

/// The message of a type in the error class.
#[tactic(auto, unfolding(crate::specs::Message::error_of))]
fn error(kind: u8) -> Entry
    ensures { (bytes : List ℕ) → entry_message bytes result ≡ error_of kind }
{
    match kind {
        PROTOCOL_ERROR => Entry::ProtocolError,
        SIZE_ERROR => Entry::SizeError,
        _ => Entry::Other {
            class: ERROR_CLASS,
            kind,
        },
    }
}

/// An update with or without an id and a remaining life.
#[inline]
fn update(
    has_id: bool,
    has_life: bool,
    bytes: &[u8],
    start: usize,
    len: usize,
) -> Result<Entry, WireCause>
    requires within { start + len ≤ length bytes.now }
    requires small { len ≤ LONGEST_PAYLOAD }
    ensures { GivesEntry bytes.now result
        (update_of has_id has_life (take len (drop start bytes.now))) }
{
    match update_of(has_id, has_life, &bytes[start..][..len]) {
        None => Err(WireCause::BadField),
        Some((id, life, taken)) => Ok(Entry::Update {
            id,
            life,
            len: (len - taken) as u32,
            start: start + taken,
        }),
    }
}

/// A switch.
fn switch(payload: &[u8]) -> Result<Entry, WireCause>
    ensures { (bytes : List ℕ) → GivesEntry bytes result (switch_of payload.now) }
{
    match switch_of(payload) {
        None => Err(WireCause::BadField),
        Some(id) => Ok(Entry::Switch(id)),
    }
}

/// An acknowledgement.
fn acked(payload: &[u8]) -> Result<Entry, WireCause>
    ensures { (bytes : List ℕ) → GivesEntry bytes result (acked_of payload.now) }
{
    match acked_of(payload) {
        None => Err(WireCause::BadField),
        Some((id, last)) => Ok(Entry::Acked { id, last }),
    }
}

/// A definition, in a block of its own.
#[inline(never)]
fn define(alloc: Global, payload: &[u8]) -> Result<Entry, WireCause>
    ensures { (bytes : List ℕ) → GivesEntry bytes result (define_of payload.now) }
{
    let definition = read_definition(alloc, Bytes::copy_from_slice(alloc, payload)?)?;
    Ok(Entry::Define(boxed(alloc, definition)?))
}

fn boxed(alloc: Global, definition: Definition) -> Result<Box<Definition>, NoMemory>
    ensures { IfOk result (λ it. box_value it ≡ definition) }
{
    Ok(Box::new(alloc, definition)?)
}

/// The message of a type in the table class, whose payload lies there.
#[inline]
#[tactic(auto, unfolding(crate::specs::Message::table_of))]
fn table(
    alloc: Global,
    kind: u8,
    bytes: &[u8],
    start: usize,
    len: usize,
) -> Result<Entry, WireCause>
    requires within { start + len ≤ length bytes.now }
    requires small { len ≤ LONGEST_PAYLOAD }
    ensures { GivesEntry bytes.now result (table_of kind (take len (drop start bytes.now))) }
{
    match kind {
        UPDATE => update(true, false, bytes, start, len),
        INCREMENTAL_UPDATE => update(false, false, bytes, start, len),
        TABLE_DEFINITION => define(alloc, &bytes[start..][..len]),
        TABLE_SWITCH => switch(&bytes[start..][..len]),
        ACKNOWLEDGEMENT => acked(&bytes[start..][..len]),
        TIMED_UPDATE => update(true, true, bytes, start, len),
        TIMED_INCREMENTAL_UPDATE => update(false, true, bytes, start, len),
        _ => Ok(Entry::Other {
            class: TABLE_CLASS,
            kind,
        }),
    }
}

/// The message of a class, a type and a payload that lies there.
#[inline]
#[tactic(auto, unfolding(crate::specs::Message::message_of))]
fn entry(
    alloc: Global,
    class: u8,
    kind: u8,
    bytes: &[u8],
    start: usize,
    len: usize,
) -> Result<Entry, WireCause>
    requires within { start + len ≤ length bytes.now }
    requires small { len ≤ LONGEST_PAYLOAD }
    ensures { GivesEntry bytes.now result
        (message_of class kind (take len (drop start bytes.now))) }
{
    match class {
        CONTROL_CLASS => Ok(control(kind)),
        ERROR_CLASS => Ok(error(kind)),
        TABLE_CLASS => table(alloc, kind, bytes, start, len),
        _ => Ok(Entry::Other { class, kind }),
    }
}

/// The first message from a place on, where one is whole, and the place behind it.
#[inline]
#[tactic(auto, unfolding(crate::specs::Message::first_of))]
fn entry_at(alloc: Global, bytes: &[u8], at: usize) -> Result<Option<(Entry, usize)>, WireCause>
    requires { at ≤ length bytes.now }
    ensures { IsFirst result bytes.now at (first_of (drop at bytes.now)) }
{
    match head_of(&bytes[at..]) {
        Head::Short => Ok(None),
        Head::Wrong(cause) => Err(cause),
        Head::Whole {
            class,
            kind,
            start,
            len,
        } => {
            let start = at + start;
            let found = entry(alloc, class, kind, bytes, start, len)?;
            Ok(Some((found, start + len)))
        }
    }
}

/// How many messages so many bytes may have: room is made for them at once, so that few are moved.
fn expected(bytes: usize) -> usize {
    (bytes / FEW_BYTES).min(MOST_EXPECTED)
}

/// A copy of bytes, with room for a short piece behind them, in a block that is empty.
fn with_room(room: BytesMut, bytes: &[u8]) -> Result<BytesMut, NoMemory>
    requires { room.items ≡ [] }
    ensures { IfOk result (λ copied. copied.items ≡ bytes.now) }
{
    let mut copied = room;
    copied.reserve(bytes.len().saturating_add(SHORT_PIECE))?;
    copied.extend_from_slice(bytes)?;
    Ok(copied)
}

/// Reads all whole messages. Takes no time for a message's payload that isn't whole. The messages
/// and the bytes behind them lie in these blocks where they have room, which are empty.
pub(crate) fn decode(
    alloc: Global,
    bytes: BytesMut,
    list: Vec<Entry>,
    room: BytesMut,
) -> Result<Given, NoMemory>
    requires list { list.items ≡ [] }
    requires room { room.items ≡ [] }
    ensures { IfOk result (λ given. given ≡ reading_of bytes.items) }
{
    let mut entries = list;
    entries.reserve(expected(bytes.len()))?;
    let mut at = 0;
    loop {
        match entry_at(alloc, bytes.as_slice(), at) {
            Ok(Some((entry, next))) => {
                entries.push(entry)?;
                at = next;
            }
            Ok(None) => {
                let rest = with_room(room, &bytes.as_slice()[at..])?;
                return Ok(Given::whole(bytes, Items::from_vec(entries), rest));
            }
            Err(cause) => match cause {
                WireCause::NoMemory => return Err(NoMemory),
                _ => {
                    let entries = Items::from_vec(entries);
                    return Ok(Given::faulty(alloc, bytes, entries, cause));
                }
            },
        }
    }
}

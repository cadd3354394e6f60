//! Messages as bytes.

ghost use Rattle.std.specs.Prelude.{◌≡◌, ◌++◌, ◌∷◌, [], length, take, OnOk, OnErr};
ghost use Rattle.std.specs.Int.{w32, to_be_bytes};
ghost use Rattle.peers_msg.specs.Kinds.{table_definition, table_switch, acknowledgement};
ghost use Rattle.peers_msg.specs.Spelling.{IsSendable, integer_spelling};
ghost use Rattle.peers_msg.specs.Spelling.{word_spelling, fields_spelling, definition_spelling};
ghost use Rattle.peers_msg.specs.Spelling.{table_spelling, update_kind, message_spelling};

use crate::integer::append_int;
use crate::kinds::*;
use crate::parameters::append_parameters;
use crate::{Definition, Message};
use agg_types::NoMemory;

/// The least number whose spelling takes more than one byte.
const FIRST_OF_LONG: u64 = 240;

/// How many bytes the payload of an acknowledgement has whose id takes one.
const SHORT_ACKED: u8 = 5;

/// Appends the one spelling of a message. After `NoMemory` the bytes of `out` are as they were.
///
/// The message is of a known kind, and its payload no longer than the longest.
pub fn write_message(message: &Message, out: &mut Vec<u8>) -> Result<(), NoMemory>
    requires { IsSendable message.now }
    ensures ok { OnOk result (out.new.items ≡ out.old.items ++ message_spelling message.now) }
    ensures err { OnErr result (out.new.items ≡ out.old.items) }
{
    let len = out.len();
    if append_message(message, out).is_err() {
        out.truncate(len);
        return Err(NoMemory);
    }
    Ok(())
}

/// Appends the spelling of a message, or some of its bytes before `NoMemory`.
#[tactic(auto, unfolding(crate::specs::Spelling::message_spelling))]
fn append_message(message: &Message, out: &mut Vec<u8>) -> Result<(), NoMemory>
    requires { IsSendable message.now }
    ensures ok { OnOk result (out.new.items ≡ out.old.items ++ message_spelling message.now) }
    ensures begins { take (length out.old.items) out.new.items ≡ out.old.items }
{
    match message {
        Message::Request => append_short(CONTROL_CLASS, RESYNC_REQUEST, out),
        Message::Finished => append_short(CONTROL_CLASS, RESYNC_FINISHED, out),
        Message::Partial => append_short(CONTROL_CLASS, RESYNC_PARTIAL, out),
        Message::Confirm => append_short(CONTROL_CLASS, RESYNC_CONFIRM, out),
        Message::Heartbeat => append_short(CONTROL_CLASS, HEARTBEAT, out),
        Message::ProtocolError => append_short(ERROR_CLASS, PROTOCOL_ERROR, out),
        Message::SizeError => append_short(ERROR_CLASS, SIZE_ERROR, out),
        Message::Update { id, life, rest } => append_update(*id, *life, rest.as_slice(), out),
        Message::Define(definition) => append_definition(definition, out),
        Message::Switch(id) => append_switch(*id, out),
        Message::Acked { id, last } => append_acked(*id, *last, out),
        Message::Other { class: _, kind: _ } => unreachable!(),
    }
}

/// Appends a message without a payload.
fn append_short(class: u8, kind: u8, out: &mut Vec<u8>) -> Result<(), NoMemory>
    ensures ok { OnOk result (out.new.items ≡ out.old.items ++ class ∷ kind ∷ []) }
    ensures begins { take (length out.old.items) out.new.items ≡ out.old.items }
{
    Ok(out.extend_from_slice(&[class, kind])?)
}

/// Appends a message of the table class with a payload.
fn append_framed(kind: u8, payload: &[u8], out: &mut Vec<u8>) -> Result<(), NoMemory>
    ensures ok { OnOk result (out.new.items ≡ out.old.items ++ table_spelling kind payload.now) }
    ensures begins { take (length out.old.items) out.new.items ≡ out.old.items }
{
    append_short(TABLE_CLASS, kind, out)?;
    append_int(payload.len() as u64, out)?;
    Ok(out.extend_from_slice(payload)?)
}

/// Appends a word where there is one.
fn append_word(word: Option<u32>, out: &mut Vec<u8>) -> Result<(), NoMemory>
    ensures { OnOk result (out.new.items ≡ out.old.items ++ word_spelling word) }
{
    match word {
        None => Ok(()),
        Some(word) => Ok(out.extend_from_slice(&word.to_be_bytes())?),
    }
}

/// The type of an update with or without an id and a remaining life.
fn kind_of_update(id: Option<u32>, life: Option<u32>) -> u8
    ensures { result ≡ update_kind id life }
{
    match (id, life) {
        (Some(_), None) => UPDATE,
        (None, None) => INCREMENTAL_UPDATE,
        (Some(_), Some(_)) => TIMED_UPDATE,
        (None, Some(_)) => TIMED_INCREMENTAL_UPDATE,
    }
}

/// Appends an update.
fn append_update(
    id: Option<u32>,
    life: Option<u32>,
    rest: &[u8],
    out: &mut Vec<u8>,
) -> Result<(), NoMemory>
    ensures ok { OnOk result (out.new.items ≡ out.old.items
        ++ table_spelling (update_kind id life) (word_spelling id ++ word_spelling life
        ++ rest.now)) }
    ensures begins { take (length out.old.items) out.new.items ≡ out.old.items }
{
    let mut payload = Vec::new(*out.allocator());
    append_word(id, &mut payload)?;
    append_word(life, &mut payload)?;
    payload.extend_from_slice(rest)?;
    append_framed(kind_of_update(id, life), payload.as_slice(), out)
}

/// Appends a switch.
fn append_switch(id: u64, out: &mut Vec<u8>) -> Result<(), NoMemory>
    ensures ok { OnOk result (out.new.items ≡ out.old.items
        ++ table_spelling table_switch (integer_spelling id)) }
    ensures begins { take (length out.old.items) out.new.items ≡ out.old.items }
{
    let mut payload = Vec::new(*out.allocator());
    append_int(id, &mut payload)?;
    append_framed(TABLE_SWITCH, payload.as_slice(), out)
}

/// Appends an acknowledgement. Where its id takes one byte, as nearly all do, no payload is laid
/// out before.
fn append_acked(id: u64, last: u32, out: &mut Vec<u8>) -> Result<(), NoMemory>
    ensures ok { OnOk result (out.new.items ≡ out.old.items
        ++ table_spelling acknowledgement (integer_spelling id ++ to_be_bytes w32 last)) }
    ensures begins { take (length out.old.items) out.new.items ≡ out.old.items }
{
    if id < FIRST_OF_LONG {
        out.extend_from_slice(&[TABLE_CLASS, ACKNOWLEDGEMENT, SHORT_ACKED, id as u8])?;
        return Ok(out.extend_from_slice(&last.to_be_bytes())?);
    }
    append_long_acked(id, last, out)
}

/// Appends an acknowledgement of any id.
fn append_long_acked(id: u64, last: u32, out: &mut Vec<u8>) -> Result<(), NoMemory>
    ensures ok { OnOk result (out.new.items ≡ out.old.items
        ++ table_spelling acknowledgement (integer_spelling id ++ to_be_bytes w32 last)) }
    ensures begins { take (length out.old.items) out.new.items ≡ out.old.items }
{
    let mut payload = Vec::new(*out.allocator());
    append_int(id, &mut payload)?;
    payload.extend_from_slice(&last.to_be_bytes())?;
    append_framed(ACKNOWLEDGEMENT, payload.as_slice(), out)
}

/// Appends a definition.
fn append_definition(definition: &Definition, out: &mut Vec<u8>) -> Result<(), NoMemory>
    ensures ok { OnOk result (out.new.items ≡ out.old.items
        ++ table_spelling table_definition (definition_spelling definition.now)) }
    ensures begins { take (length out.old.items) out.new.items ≡ out.old.items }
{
    let mut payload = Vec::new(*out.allocator());
    append_fields(definition, &mut payload)?;
    append_parameters(definition, &mut payload)?;
    append_framed(TABLE_DEFINITION, payload.as_slice(), out)
}

/// Appends the fields of a definition up to the expiry.
fn append_fields(definition: &Definition, out: &mut Vec<u8>) -> Result<(), NoMemory>
    ensures { OnOk result (out.new.items ≡ out.old.items ++ fields_spelling definition.now) }
{
    append_int(definition.id, out)?;
    append_int(definition.name.len() as u64, out)?;
    out.extend_from_slice(definition.name.as_slice())?;
    append_int(definition.kind, out)?;
    append_int(definition.len, out)?;
    append_int(definition.bits, out)?;
    append_int(definition.expiry, out)
}

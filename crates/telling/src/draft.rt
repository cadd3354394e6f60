//! The messages of a turn.

ghost use Rattle.std.specs.Prelude.{◌≡◌, ◌+◌, ◌++◌, OnOk};
ghost use Rattle.peers_msg.specs.Kinds.{table_definition, timed_update};
ghost use Rattle.peers_msg.specs.Spelling.{definition_spelling, message_spelling, table_spelling};
ghost use Rattle.peers_msg.specs.Spelling.{payload_spelling};
ghost use Rattle.peers_msg.specs.declared.message.Message.TheVariants.{Define};
ghost use Rattle.telling.specs.Telling.{definition_of, key_length, key_spelling, update_of};

use agg_types::limits::LONGEST_KEY;
use agg_types::{Col, KeyKind, KeyLength, NoMemory};
use peers_msg::kinds::{TABLE_CLASS, TABLE_DEFINITION, TIMED_UPDATE};
use peers_msg::put_int;
use pushed_keys::{Change, Pushed};
use std::alloc::Global;

// The life of a key that is taken away, in ms.
const GONE: u32 = 1;

/// A message that is being put together. Its room serves the next one too.
#[derive(Drop)]
pub struct Draft {
    pub message: Vec<u8>,
    payload: Vec<u8>,
}

impl Draft {
    /// No message. Takes no memory.
    pub fn new(alloc: Global) -> Draft {
        Draft {
            message: Vec::new(alloc),
            payload: Vec::new(alloc),
        }
    }

    /// Makes it the definition of the table with this id.
    pub fn define(&mut self, id: u64, pushed: &Pushed) -> Result<(), NoMemory>
        ensures { OnOk result (self.new.message.items
            ≡ message_spelling (Define (definition_of id pushed.now))) }
    {
        self.payload.clear();
        append_fields(id, pushed, &mut self.payload)?;
        self.message.clear();
        append_framed(TABLE_DEFINITION, self.payload.as_slice(), &mut self.message)
    }

    /// Makes it an update.
    pub fn update(
        &mut self,
        pushed: &Pushed,
        id: u32,
        key: &[u8],
        change: Change,
    ) -> Result<(), NoMemory>
        ensures { OnOk result (self.new.message.items
            ≡ message_spelling (update_of pushed.now id key.now change)) }
    {
        self.payload.clear();
        append_update(pushed, id, key, change, &mut self.payload)?;
        self.message.clear();
        append_framed(TIMED_UPDATE, self.payload.as_slice(), &mut self.message)
    }
}

// Appends a message of the table class.
fn append_framed(kind: u8, payload: &[u8], out: &mut Vec<u8>) -> Result<(), NoMemory>
    ensures { OnOk result (out.new.items ≡ out.old.items ++ table_spelling kind payload.now) }
{
    out.extend_from_slice(&[TABLE_CLASS, kind])?;
    put_int(payload.len() as u64, out)?;
    Ok(out.extend_from_slice(payload)?)
}

// Appends the fields of a table's definition.
fn append_fields(id: u64, pushed: &Pushed, out: &mut Vec<u8>) -> Result<(), NoMemory>
    ensures { OnOk result (out.new.items ≡ out.old.items
        ++ definition_spelling (definition_of id pushed.now)) }
{
    let name = pushed.name.as_slice();
    put_int(id, out)?;
    put_int(name.len() as u64, out)?;
    out.extend_from_slice(name)?;
    put_int(pushed.kind.number(), out)?;
    put_int(key_length(pushed.kind), out)?;
    put_int(stored_types(), out)?;
    put_int(u64::from(pushed.life), out)
}

// The bits of the data types that a pushed table stores: gpc0 alone.
fn stored_types() -> u64
    ensures { result ≡ 4 }
{
    1 << Col::Gpc0.id()
}

// Appends the payload of an update.
fn append_update(
    pushed: &Pushed,
    id: u32,
    key: &[u8],
    change: Change,
    out: &mut Vec<u8>,
) -> Result<(), NoMemory>
    ensures { OnOk result (out.new.items ≡ out.old.items
        ++ payload_spelling (update_of pushed.now id key.now change)) }
{
    let (life, gpc0) = match change {
        Change::Put => (pushed.life, 1),
        Change::TakeAway => (GONE, 0),
    };
    out.extend_from_slice(&id.to_be_bytes())?;
    out.extend_from_slice(&life.to_be_bytes())?;
    append_key(pushed.kind, key, out)?;
    Ok(out.push(gpc0)?)
}

// Appends a key as its table's updates have it.
fn append_key(kind: KeyKind, key: &[u8], out: &mut Vec<u8>) -> Result<(), NoMemory>
    ensures { OnOk result (out.new.items ≡ out.old.items ++ key_spelling kind key.now) }
{
    if let KeyLength::AtMost(_) = kind.length() {
        put_int(key.len() as u64, out)?;
    }
    Ok(out.extend_from_slice(key)?)
}

// The length of a key in a definition, in bytes.
fn key_length(kind: KeyKind) -> u64
    ensures { result ≡ key_length kind }
{
    match kind.length() {
        KeyLength::Exactly(exact) => exact,
        KeyLength::AtMost(most) => most.min(LONGEST_KEY) + 1,
    }
}

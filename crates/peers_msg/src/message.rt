//! The messages of the peers protocol.

use agg_types::Items;
use bytes::Bytes;

/// A message, after the peers protocol 2.1 of HAProxy's `doc/peers-v2.0.txt`.
#[derive(Debug, Drop)]
pub enum Message {
    /// The sender asks for all of the receiver's tables.
    Request,
    /// The sender has sent all that was asked for.
    Finished,
    /// The sender has sent what it could of what was asked for.
    Partial,
    /// The end of a resync is confirmed.
    Confirm,
    /// The sender is still there.
    Heartbeat,
    /// The sender could not read what it got.
    ProtocolError,
    /// The sender got a message above its limit.
    SizeError,
    /// An entry of the table in force.
    Update {
        /// The update's id; `None` stands for the one after the last.
        id: Option<u32>,
        /// The remaining life in milliseconds of a timed update.
        life: Option<u32>,
        /// The key and the values, as they were sent.
        rest: Bytes,
    },
    /// A table's definition, which also puts it in force.
    Define(Definition),
    /// Puts the table with this sender's table id in force.
    Switch(u64),
    /// The receiver of a table's updates has seen them up to the id `last`.
    Acked {
        /// The table's id, as its sender gave it.
        id: u64,
        /// The id of the last update that was received.
        last: u32,
    },
    /// A message of any other class and type, whose payload was skipped.
    Other {
        /// The class byte.
        class: u8,
        /// The type byte.
        kind: u8,
    },
}

/// A table as its sender defines it.
#[derive(Debug, Drop)]
pub struct Definition {
    /// The sender's id of the table.
    pub id: u64,
    /// The table's name.
    pub name: Bytes,
    /// The key's type.
    pub kind: u64,
    /// The key's length in bytes.
    pub len: u64,
    /// The stored data types, a bit for each id.
    pub bits: u64,
    /// The life of an entry in milliseconds; 0 for no end.
    pub expiry: u64,
    /// Each data type's id with its period in milliseconds, in the order in which they were sent:
    /// up to that of the last column, but for the arrays' and that of servers' names. The last pair
    /// of an id holds.
    pub periods: Items<(u64, u64)>,
    /// The arrays, in the order in which they were sent. The last one of an id holds.
    pub arrays: Items<ArrayParameter>,
}

/// What a definition says of an array.
#[derive(Clone, Copy, Debug)]
pub struct ArrayParameter {
    /// The data type's id: `GPT_ARRAY`, `GPC_ARRAY` or `GPC_RATE_ARRAY`.
    pub id: u64,
    /// How many elements the array has.
    pub count: u64,
    /// The period of all elements in milliseconds, where they are rates.
    pub period: Option<u64>,
}

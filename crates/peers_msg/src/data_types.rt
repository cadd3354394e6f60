//! The stored data types that are no single values: "Data types" in HAProxy's `doc/peers-v2.0.txt`.
//! Those of columns are named by `agg_types::Col`.

/// The name of a server: a length and so many bytes.
pub const SERVER_KEY: u64 = 19;

/// An array of tags: so many numbers.
pub const GPT_ARRAY: u64 = 22;

/// An array of general purpose counters: so many numbers.
pub const GPC_ARRAY: u64 = 23;

/// An array of their rates: so many times three numbers.
pub const GPC_RATE_ARRAY: u64 = 24;

//! The limits of the product, each written once: code and definitions cite them by these names.

/// The most peers of a fleet.
pub const MOST_PEERS: usize = 256;

/// The most tables.
pub const MOST_TABLES: usize = 16;

/// The most standing filters, configured and added.
pub const MOST_FILTERS: usize = 32;

/// The most ranked lists.
pub const MOST_RANKS: usize = 16;

/// The most filters that are pushed.
pub const MOST_PUSHES: usize = 16;

/// The most filters whose keys the log tells as they come and go.
pub const MOST_LOGS: usize = 32;

/// The most names under which tables are ignored.
pub const MOST_IGNORED: usize = 256;

/// The shortest hold of a pushed filter, in ms.
pub const SHORTEST_HOLD: u64 = 1000;

/// The first hold, in ms, that is too long.
pub const HOLD_END: u64 = 1 << 31;

/// The most conditions of a filter or of a command.
pub const MOST_CONDS: usize = 4;

/// The most seats that are taken at one time.
pub const MOST_SEATS: usize = 512;

/// The longest name, in bytes.
pub const LONGEST_NAME: usize = 128;

/// The longest key of a string or binary table, in bytes.
pub const LONGEST_KEY: u64 = 256;

/// The most rows of one peer in one table.
pub const LARGEST_SIZE: u64 = 1_000_000;

/// The highest bound on the rows of all peers and tables together.
pub const MOST_ROWS: u64 = 1 << 40;

/// The longest ranked list.
pub const LONGEST_RANK: u64 = 1000;

/// The first period or life, in ms, that is too long.
pub const PERIOD_END: u32 = 1 << 31;

/// The longest payload of a message of the peers protocol, in bytes.
pub const LONGEST_PAYLOAD: u64 = 16_384;

/// The longest line of a hello, in bytes before its LF.
pub const LONGEST_HELLO_LINE: usize = 256;

/// The longest line of commands, in bytes before its LF.
pub const LONGEST_COMMAND_LINE: usize = 4096;

/// The most tables of its sender, by their ids, that a session ever follows.
pub const MOST_FOLLOWED: usize = 256;

/// The greatest moment, in ms.
pub const LAST_MOMENT: u64 = 1 << 62;

/// The greatest number of a seat.
pub const LAST_SEAT: u64 = 1 << 62;

/// The first number that none of a seat's events has. They are numbered from 0.
pub const NUMBERS_END: u64 = 1 << 62;

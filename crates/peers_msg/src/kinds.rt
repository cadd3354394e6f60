//! The classes and types of messages, and the limits of what is read: "Messages" in HAProxy's
//! `doc/peers-v2.0.txt`. Who writes or looks at messages cites them by these names.

/// The class of resync messages and heartbeats.
pub const CONTROL_CLASS: u8 = 0;

/// The class of errors.
pub const ERROR_CLASS: u8 = 1;

/// The class of a stick table's messages.
pub const TABLE_CLASS: u8 = 10;

/// Of the control class: a resync is asked for.
pub const RESYNC_REQUEST: u8 = 0;

/// Of the control class: a resync is over, and all was sent.
pub const RESYNC_FINISHED: u8 = 1;

/// Of the control class: a resync is over, and not all was sent.
pub const RESYNC_PARTIAL: u8 = 2;

/// Of the control class: the end of a resync was read.
pub const RESYNC_CONFIRM: u8 = 3;

/// Of the control class: the sender is there.
pub const HEARTBEAT: u8 = 4;

/// Of the error class: the protocol was broken.
pub const PROTOCOL_ERROR: u8 = 0;

/// Of the error class: a message was too long.
pub const SIZE_ERROR: u8 = 1;

/// Of the table class: a row, with its id.
pub const UPDATE: u8 = 128;

/// Of the table class: a row, with the id after the last.
pub const INCREMENTAL_UPDATE: u8 = 129;

/// Of the table class: a table, which is in force from here on.
pub const TABLE_DEFINITION: u8 = 130;

/// Of the table class: a table that was defined is in force again.
pub const TABLE_SWITCH: u8 = 131;

/// Of the table class: the updates up to an id were read.
pub const ACKNOWLEDGEMENT: u8 = 132;

/// Of the table class: a row, with its id and its life.
pub const TIMED_UPDATE: u8 = 133;

/// Of the table class: a row, with its life and the id after the last.
pub const TIMED_INCREMENTAL_UPDATE: u8 = 134;

/// The least type whose messages have a payload.
pub const FIRST_WITH_PAYLOAD: u8 = 128;

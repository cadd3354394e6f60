//! The lines that tell of keys.

use crate::value::Value;
use std::fmt;

/// A key came into a logged filter's set or left it, or some did and aren't told.
#[derive(Clone, Copy)]
pub enum KeyLine<'a> {
    /// A key came in. Its text is as `show table` writes it; the values are the fleet's sums of the
    /// filter's columns as text, nothing where no peer has a row of the key any more.
    Entered {
        filter: &'a [u8],
        key: &'a [u8],
        values: &'a [u8],
    },
    /// A key left.
    Left {
        filter: &'a [u8],
        key: &'a [u8],
    },
    /// So many changes of a filter aren't told, or it isn't known which there were.
    LeftOut {
        filter: &'a [u8],
        count: Option<u64>,
    },
}

impl<'a> KeyLine<'a> {
    /// How much an operator has to care, and what happened.
    pub fn words(&self) -> &'static str {
        match self {
            KeyLine::Entered { .. } => "info key entered",
            KeyLine::Left { .. } => "info key left",
            KeyLine::LeftOut { .. } => "warn key changes not logged",
        }
    }
}

/// What the line says behind its words.
impl<'a> fmt::Display for KeyLine<'a> {
    fn fmt<W: fmt::Write>(&self, f: &mut fmt::Formatter<W>) -> fmt::Result {
        match *self {
            KeyLine::Entered {
                filter,
                key,
                values,
            } => {
                let (filter, key) = (Value(filter), Value(key));
                let values = values.escape_ascii();
                write!(f, " filter={filter} key={key}{values}")
            }
            KeyLine::Left { filter, key } => {
                write!(f, " filter={} key={}", Value(filter), Value(key))
            }
            KeyLine::LeftOut {
                filter,
                count: None,
            } => write!(f, " filter={}", Value(filter)),
            KeyLine::LeftOut {
                filter,
                count: Some(count),
            } => write!(f, " filter={} count={count}", Value(filter)),
        }
    }
}

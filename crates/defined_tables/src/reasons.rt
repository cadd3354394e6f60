//! Why a table isn't followed, in words.

use crate::verdict::Verdict;
use agg_types::{Config, KeyKind};
use std::fmt;

/// A verdict in words, with the table that it is on.
#[derive(Clone, Copy)]
pub struct Because<'a> {
    /// The configuration by which it was judged.
    pub config: &'a Config,
    /// The table's name, as the peer has it.
    pub name: &'a [u8],
    /// What comes of it.
    pub verdict: Verdict,
}

// The type of keys, as HAProxy writes it.
fn type_name(kind: u64) -> &'static str {
    match KeyKind::from_number(kind) {
        None => "unknown",
        Some(kind) => kind.name(),
    }
}

impl<'a> fmt::Display for Because<'a> {
    fn fmt<W: fmt::Write>(&self, f: &mut fmt::Formatter<W>) -> fmt::Result {
        match self.verdict {
            Verdict::Followed => f.write_str("followed"),
            Verdict::Pushed => f.write_str("pushed"),
            Verdict::Ignored => f.write_str("ignored"),
            Verdict::NoTable => {
                let name = self.name.escape_ascii();
                write!(f, "no table {name} is configured")
            }
            Verdict::Near(table) => {
                let name = self.name.escape_ascii();
                write!(f, "no table {name} is configured; ")?;
                match self.config.tables.get(table) {
                    None => f.write_str("another"),
                    Some(shape) => write!(f, "{}", shape.name.as_slice().escape_ascii()),
                }?;
                f.write_str(" is")
            }
            Verdict::Kind { sent, here } => {
                let (there, here) = (type_name(sent), here.name());
                write!(f, "keys of type {there} there, {here} here")
            }
            Verdict::Length { sent, here } => {
                write!(f, "keys of {sent} bytes there, {here} here")
            }
        }
    }
}

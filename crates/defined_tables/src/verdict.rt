//! Whether a table that a peer defines is followed.

use agg_types::{Config, KeyKind, KeyLength, Shape};
use peers_msg::Definition;

/// What comes of a table that a peer defines.
#[derive(Clone, Copy, Debug, PartialEq, Eq)]
pub enum Verdict {
    /// It is followed.
    Followed,
    /// It has a pushed filter's name: the proxy is told it, and what the proxy says of it counts
    /// for nothing.
    Pushed,
    /// It isn't followed, and that is wanted.
    Ignored,
    /// No table has its name.
    NoTable,
    /// No table has its name, but one has it with a slash before it, or without the one before it.
    /// The table goes by its place in the configuration.
    Near(usize),
    /// The table of its name has keys of another type.
    Kind { sent: u64, here: KeyKind },
    /// The table of its name has keys of another length.
    Length { sent: u64, here: u64 },
}

impl Verdict {
    /// Whether it is passed over, though the peer may mean it to be followed.
    pub fn is_unknown(self) -> bool {
        match self {
            Verdict::Followed | Verdict::Pushed | Verdict::Ignored => false,
            Verdict::NoTable | Verdict::Near(_) | Verdict::Kind { .. } | Verdict::Length { .. } =>
                true,
        }
    }
}

/// What comes of a table that a peer defines.
pub fn judge(config: &Config, definition: &Definition) -> Verdict {
    let name = definition.name.as_slice();
    let tables = &config.tables;
    let found = match tables.position(name) {
        None => None,
        Some(table) => tables.get(table),
    };
    match found {
        None => nameless(config, name),
        Some(shape) => judge_for(shape, definition),
    }
}

// A table of no such name.
fn nameless(config: &Config, name: &[u8]) -> Verdict {
    if config.ignored.position(name).is_some() {
        return Verdict::Ignored;
    }
    if config.pushes.position(name).is_some() {
        return Verdict::Pushed;
    }
    let is_near = |shape: &Shape| differ_by_slash(shape.name.as_slice(), name);
    match config.tables.as_slice().iter().position(is_near) {
        None => Verdict::NoTable,
        Some(table) => Verdict::Near(table),
    }
}

// Whether one of two names is the other with a slash before it.
fn differ_by_slash(one: &[u8], other: &[u8]) -> bool {
    one.strip_prefix(b"/") == Some(other) || other.strip_prefix(b"/") == Some(one)
}

fn judge_for(shape: &Shape, definition: &Definition) -> Verdict {
    if definition.kind != shape.kind.number() {
        return Verdict::Kind {
            sent: definition.kind,
            here: shape.kind,
        };
    }
    if let KeyLength::Exactly(exact) = shape.kind.length()
        && definition.len != exact
    {
        return Verdict::Length {
            sent: definition.len,
            here: exact,
        };
    }
    Verdict::Followed
}

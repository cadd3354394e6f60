//! What a line asks for.

ghost use Rattle.std.specs.Prelude.{◌≡◌, None, Some, IfNone, IfSome};
ghost use Rattle.show_clear.specs.Change.{asked_event, change_of, event_of};

use agg_types::{Filter, Key, Name, Select, What};

/// What a line asks for (Management Guide, "show table" and "clear table"; the others are this
/// project's own). Tables, standing filters and ranked lists are named by position.
#[derive(Debug, Drop)]
pub enum Command {
    /// Something is to be shown.
    Ask(Question),
    /// Something is to be changed. This is answered `ok`.
    Change(Change),
}

/// What is to be shown.
#[derive(Debug, Drop)]
pub enum Question {
    /// The heading of each table.
    Tables,
    /// The heading of a table, and its selected rows.
    Table { table: usize, sel: Select },
    /// The keys that a standing filter holds.
    FilterKeys(usize),
    /// The keys of a ranked list.
    Ranking(usize),
    /// The first moment at which a standing filter holds other keys.
    NextChange(usize),
    /// The peers that hold a key of a table, and what the table's filters say of it.
    OneKey { table: usize, key: Key },
}

/// What is to be changed.
#[derive(Debug, Drop)]
pub enum Change {
    /// The selected keys of a table are taken away.
    Clear { table: usize, sel: Select },
    /// A standing filter is added behind the others.
    AddFilter(Filter),
    /// The added filter of a name is taken away.
    DropFilter(Name),
}

impl Command {
    /// The change that a command asks for, none where it only asks for an answer.
    pub fn change(&self) -> Option<&Change>
        ensures some { IfSome result (λ change. change_of self.now ≡ Some change.now) }
        ensures none { IfNone result (change_of self.now ≡ None) }
    {
        match self {
            Command::Ask(_) => None,
            Command::Change(change) => Some(change),
        }
    }

    /// The event that carries its change out, none where it only asks for an answer.
    pub fn into_event(self) -> Option<What>
        ensures { result ≡ asked_event self }
    {
        match self {
            Command::Ask(_) => None,
            Command::Change(change) => Some(change.into_event()),
        }
    }
}

impl Change {
    /// The event that carries it out.
    pub fn into_event(self) -> What
        ensures { result ≡ event_of self }
    {
        match self {
            Change::Clear { table, sel } => What::Clear { table, sel },
            Change::AddFilter(filter) => What::AddFilter(filter),
            Change::DropFilter(name) => What::DropFilter(name),
        }
    }
}

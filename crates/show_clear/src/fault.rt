//! What is wrong with a line.

ghost use Rattle.std.specs.Prelude.{◌≡◌, ◌++◌, length, take, OnOk, OnErr};
ghost use Rattle.show_clear.specs.Refusal.{fault_name, fault_number, refusal_text};

use agg_types::NoMemory;
use answer_text::{append_counted, append_labelled};
use key_text::append_text;
use thiserror::Error;

/// Why a line is no command: the first fault from the left. A refusal has its name and its number,
/// which is its place in this list, from 1.
#[derive(Clone, Copy, Debug, PartialEq, Eq, Error)]
pub enum CommandFault {
    /// The line has no word.
    #[error("the line has no word")]
    Empty,
    /// A word is unknown, missing or one too many, or the line has more bytes than
    /// `LONGEST_COMMAND_LINE`.
    #[error("a word is unknown, missing or one too many, or the line is too long")]
    Unknown,
    /// No table, standing filter or ranked list has this name.
    #[error("no table, filter or ranked list has this name")]
    NoTable,
    /// No column has this name, or the table doesn't store it.
    #[error("a word names no column that the table stores")]
    BadColumn,
    /// It isn't one of eq, ne, le, ge, lt and gt.
    #[error("a word is none of eq, ne, le, ge, lt and gt")]
    BadOperator,
    /// It isn't 1 to 20 digits, or is above 2^64 - 1.
    #[error("a word is no number up to 2^64 - 1")]
    BadValue,
    /// It is no key of the table's kind.
    #[error("a word is no key of the table's kind")]
    BadKey,
    /// A condition more than `MOST_CONDS`.
    #[error("there are too many conditions")]
    TooMany,
    /// An allocation failed.
    #[error("out of memory")]
    NoMemory,
    /// It can't name a standing filter: it has more than `LONGEST_NAME` bytes, or one outside 33 to
    /// 126.
    #[error("a word can't name a filter")]
    BadName,
    /// A standing filter has this name already.
    #[error("a filter of this name exists already")]
    Exists,
    /// `MOST_FILTERS` standing filters are active.
    #[error("no further filter may be added")]
    Full,
}

impl CommandFault {
    /// The number in a refusal.
    pub fn number(self) -> u8
        ensures { result ≡ fault_number self }
    {
        self.listed().0
    }

    /// The name in a refusal.
    pub fn name(self) -> &'static str
        ensures { result.now ≡ fault_name self }
    {
        self.listed().1
    }

    // The table of numbers and names.
    fn listed(self) -> (u8, &'static str)
        ensures number { result.0 ≡ fault_number self }
        ensures name { result.1.now ≡ fault_name self }
    {
        match self {
            CommandFault::Empty => (1, "Empty"),
            CommandFault::Unknown => (2, "Unknown"),
            CommandFault::NoTable => (3, "NoTable"),
            CommandFault::BadColumn => (4, "BadColumn"),
            CommandFault::BadOperator => (5, "BadOperator"),
            CommandFault::BadValue => (6, "BadValue"),
            CommandFault::BadKey => (7, "BadKey"),
            CommandFault::TooMany => (8, "TooMany"),
            CommandFault::NoMemory => (9, "NoMemory"),
            CommandFault::BadName => (10, "BadName"),
            CommandFault::Exists => (11, "Exists"),
            CommandFault::Full => (12, "Full"),
        }
    }
}

/// Appends the text of a refusal: a line with the fault's number and name. After `NoMemory` the
/// bytes of `out` are as they were.
pub fn refusal(fault: &CommandFault, out: &mut Vec<u8>) -> Result<(), NoMemory>
    ensures ok { OnOk result (out.new.items ≡ out.old.items ++ refusal_text fault.now) }
    ensures err { OnErr result (out.new.items ≡ out.old.items) }
{
    let len = out.len();
    if append_refusal(*fault, out).is_err() {
        out.truncate(len);
        return Err(NoMemory);
    }
    Ok(())
}

#[tactic(auto, using(key_text::proofs::Begins::begins_then))]
fn append_refusal(fault: CommandFault, out: &mut Vec<u8>) -> Result<(), NoMemory>
    ensures ok { OnOk result (out.new.items ≡ out.old.items ++ refusal_text fault) }
    ensures begins { take (length out.old.items) out.new.items ≡ out.old.items }
{
    append_counted(b"refused ", u128::from(fault.number()), out)?;
    append_labelled(b" ", fault.name().as_bytes(), out)?;
    append_text(b"\n", out)
}

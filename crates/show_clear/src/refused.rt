//! Why a line is refused, and for which of its words.

ghost use Rattle.std.specs.Prelude.{◌≡◌, ◌≢◌};
ghost use Rattle.show_clear.specs.Refused.{fault_of, refused_at, refused_for, unplaced};
ghost use Rattle.show_clear.specs.declared.fault.CommandFault.TheVariants.{NoMemory as OutOfMemory};

use crate::CommandFault;
use agg_types::NoMemory;
use line_words::{Expected, Misread};
use std::alloc::{AllocError, AllocFailed};
use thiserror::Error;

/// Why a line is no command: its first fault from the left, and the word that it is about.
#[derive(Clone, Copy, Debug, PartialEq, Eq, Error)]
#[error("{fault}")]
pub struct Refused {
    pub fault: CommandFault,
    /// The word that is wrong or missing, and what had to stand there. A line that is too long has
    /// none, nor has one for which an allocation failed.
    pub at: Option<Misread>,
}

impl Refused {
    /// A fault of a word.
    pub fn at(fault: CommandFault, at: Misread) -> Refused
        ensures { result ≡ refused_at fault at }
    {
        Refused {
            fault,
            at: Some(at),
        }
    }

    /// A fault of the line as a whole.
    pub(crate) fn unplaced(fault: CommandFault) -> Refused
        ensures { result ≡ unplaced fault }
    {
        Refused { fault, at: None }
    }
}

impl From<Misread> for Refused {
    ghost from_gives = { λ at refused.
        (refused ≡ refused_for at) × (refused.fault ≢ OutOfMemory) };

    fn from(at: Misread) -> Refused {
        Refused::at(fault_of(at), at)
    }
}

// What is wrong with a line that has a wrong or missing word.
fn fault_of(at: Misread) -> CommandFault
    ensures is { result ≡ fault_of at }
    ensures spare { result ≢ OutOfMemory }
{
    if at.is_missing {
        return CommandFault::Unknown;
    }
    match at.expected {
        Expected::Number => CommandFault::BadValue,
        Expected::Column => CommandFault::BadColumn,
        Expected::Operator => CommandFault::BadOperator,
        Expected::Key => CommandFault::BadKey,
        _ => CommandFault::Unknown,
    }
}

impl From<NoMemory> for Refused {
    ghost from_gives = { λ _ refused. refused ≡ unplaced OutOfMemory };

    fn from(_refused: NoMemory) -> Refused {
        Refused::unplaced(CommandFault::NoMemory)
    }
}

impl From<AllocError> for Refused {
    ghost from_gives = { λ _ refused. refused ≡ unplaced OutOfMemory };

    fn from(_refused: AllocError) -> Refused {
        Refused::unplaced(CommandFault::NoMemory)
    }
}

impl<T: Drop> From<AllocFailed<T>> for Refused {
    ghost from_gives = { λ _ refused. refused ≡ unplaced OutOfMemory };

    fn from(_refused: AllocFailed<T>) -> Refused {
        Refused::unplaced(CommandFault::NoMemory)
    }
}

ghost use Rattle.std.specs.Prelude.{◌≡◌, None, Some};
ghost use Rattle.agg_config.specs.Reading.{cause_name, cause_of, fault_line, wrong_of};
ghost use Rattle.agg_config.specs.declared.causes.Unread.TheVariants.{NoMemory as Refused};
ghost use Rattle.agg_config.specs.declared.causes.Unread.TheVariants.{Misread as Wrongly};
ghost use Rattle.agg_config.specs.declared.causes.Wrong.{Wrong};
ghost use Rattle.agg_config.specs.declared.causes.LineCause.TheVariants.{NoMemory as RefusedLine};

use agg_types::{ConfigFault, NoMemory};
use line_words::{Expected, Misread};
use std::alloc::AllocFailed;
use std::error::Error;
use std::fmt;

/// What is wrong with a line of a configuration. Its text is what is printed of it.
#[derive(Clone, Copy, Debug, PartialEq, Eq)]
pub enum LineCause {
    /// An unknown word, column or operator, a missing word or one too many.
    Syntax,
    /// A word that has to be a number isn't 1 to 20 decimal digits up to 2^64 - 1.
    Number,
    /// What the line declares doesn't go with the lines before it.
    Check(ConfigFault),
    /// An allocation failed.
    NoMemory,
}

impl LineCause {
    /// Its name, which is its text.
    pub fn name(self) -> &'static str
        ensures { result.now ≡ cause_name self }
    {
        match self {
            LineCause::Syntax => "Syntax",
            LineCause::Number => "Number",
            LineCause::Check(fault) => fault.name(),
            LineCause::NoMemory => "NoMemory",
        }
    }
}

impl fmt::Display for LineCause {
    ghost output = { λ cause. Some (cause_name cause) };

    fn fmt<W: fmt::Write>(&self, f: &mut fmt::Formatter<W>) -> fmt::Result {
        let name = self.name();
        write!(f, "{name}")
    }
}

impl Error for LineCause {}

/// The first faulty line of a configuration, counted from 1, and its first fault: Syntax before
/// Number before Check.
#[derive(Clone, Copy, Debug, PartialEq, Eq)]
pub struct LineFault {
    pub line: usize,
    pub cause: LineCause,
    /// The word that is wrong or missing, and what had to stand there. A line that goes against
    /// those before it has none, nor has a configuration without a `name` line.
    pub place: Option<Misread>,
}

/// What is printed of a fault, without an LF: `config line <n>: <name>`.
impl fmt::Display for LineFault {
    ghost output = { λ fault. Some (fault_line fault) };

    fn fmt<W: fmt::Write>(&self, f: &mut fmt::Formatter<W>) -> fmt::Result {
        let line = self.line;
        let name = self.cause.name();
        write!(f, "config line {line}: {name}")
    }
}

/// What is wrong with a line, and with which word.
#[derive(Clone, Copy)]
pub(crate) struct Wrong {
    pub cause: LineCause,
    pub place: Option<Misread>,
}

/// Why the words of a line aren't read.
#[derive(Clone, Copy)]
pub(crate) enum Unread {
    /// A word is wrong or missing.
    Misread(Misread),
    /// An allocation failed.
    NoMemory,
}

impl From<Misread> for Unread {
    ghost from_gives = { λ misread unread. unread ≡ Wrongly misread };

    fn from(misread: Misread) -> Unread {
        Unread::Misread(misread)
    }
}

impl From<NoMemory> for Unread {
    ghost from_gives = { λ _ unread. unread ≡ Refused };

    fn from(_refused: NoMemory) -> Unread {
        Unread::NoMemory
    }
}

impl<T: Drop> From<AllocFailed<T>> for Unread {
    ghost from_gives = { λ _ unread. unread ≡ Refused };

    fn from(_refused: AllocFailed<T>) -> Unread {
        Unread::NoMemory
    }
}

impl From<NoMemory> for Wrong {
    ghost from_gives = { λ _ wrong. wrong ≡ record { cause = RefusedLine; place = None } };

    fn from(_refused: NoMemory) -> Wrong {
        Wrong {
            cause: LineCause::NoMemory,
            place: None,
        }
    }
}

impl From<Unread> for Wrong {
    ghost from_gives = { λ unread wrong. wrong ≡ wrong_of unread };

    fn from(unread: Unread) -> Wrong {
        match unread {
            Unread::Misread(misread) => Wrong {
                cause: cause_of(misread),
                place: Some(misread),
            },
            Unread::NoMemory => Wrong {
                cause: LineCause::NoMemory,
                place: None,
            },
        }
    }
}

fn cause_of(misread: Misread) -> LineCause
    ensures { result ≡ cause_of misread }
{
    if !misread.is_missing && misread.expected == Expected::Number {
        LineCause::Number
    } else {
        LineCause::Syntax
    }
}

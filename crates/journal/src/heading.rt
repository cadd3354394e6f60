//! How a line of the log begins.

use jiff::Timestamp;
use std::fmt;

/// How the lines of a log begin.
#[derive(Clone, Copy, Debug, PartialEq, Eq)]
pub enum Heading {
    /// With the time, in UTC to the second, and a space.
    Time,
    /// With the level as journald reads it: `<3>` of an error, `<4>` of a warning, `<6>` of the
    /// rest. journald keeps the time itself.
    Level,
}

/// How a line begins at a time, in seconds since 1970, by its level and what happened, which stand
/// behind that.
#[derive(Clone, Copy)]
pub(crate) struct Head<'a> {
    pub heading: Heading,
    pub seconds: u64,
    pub words: &'a str,
}

impl<'a> fmt::Display for Head<'a> {
    fn fmt<W: fmt::Write>(&self, f: &mut fmt::Formatter<W>) -> fmt::Result {
        let words = self.words;
        match self.heading {
            Heading::Time => {
                write_time(self.seconds, f)?;
                write!(f, " {words}")
            }
            Heading::Level => write!(f, "<{}>{words}", priority(words)),
        }
    }
}

// The number that syslog has for the level with which these words begin.
fn priority(words: &str) -> u8 {
    if words.starts_with("error ") {
        3
    } else if words.starts_with("warn ") {
        4
    } else {
        6
    }
}

// Writes the time in UTC. A clock that is wrong by ages gives its seconds.
fn write_time<W: fmt::Write>(seconds: u64, f: &mut fmt::Formatter<W>) -> fmt::Result {
    if let Ok(seconds) = i64::try_from(seconds) {
        if let Ok(time) = Timestamp::from_second(seconds) {
            return write!(f, "{time}");
        }
    }
    write!(f, "{seconds}")
}

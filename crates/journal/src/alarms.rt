//! Lines of the log on what a collector does so that it stays served, and lets nobody in who isn't
//! an operator.

use std::fmt;
use std::net::SocketAddr;

/// What a collector did so that it stays served, or lets nobody in who isn't an operator.
#[derive(Clone, Copy, Debug)]
pub enum Alarm {
    /// It is stuck, for this reason, and ends.
    Stuck { reason: &'static str },
    /// An operator's connection sent a line of HTTP, as a browser does, and was closed. One by the
    /// socket has no address.
    HttpAtAdmin { address: Option<SocketAddr> },
    /// So many more were, within a minute.
    MoreHttp { count: u64 },
}

impl Alarm {
    /// How much an operator has to care, and what happened.
    pub fn words(&self) -> &'static str {
        match self {
            Alarm::Stuck { .. } => "error stuck",
            Alarm::HttpAtAdmin { .. } | Alarm::MoreHttp { .. } => "warn http at the admin address",
        }
    }
}

// What it is about, as it stands in the line behind the words.
impl fmt::Display for Alarm {
    fn fmt<W: fmt::Write>(&self, f: &mut fmt::Formatter<W>) -> fmt::Result {
        match self {
            Alarm::Stuck { reason } => write!(f, " reason=\"{reason}\""),
            Alarm::HttpAtAdmin { address: None } => Ok(()),
            Alarm::HttpAtAdmin {
                address: Some(address),
            } => write!(f, " address={address}"),
            Alarm::MoreHttp { count } => write!(f, " count={count}"),
        }
    }
}

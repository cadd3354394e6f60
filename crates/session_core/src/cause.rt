//! Why a session ends.

ghost use Rattle.std.specs.Prelude.{◌≡◌};
ghost use Rattle.session_core.specs.Cause.{cause_of};

use peers_msg::WireCause;
use thiserror::Error;

/// The answer to a hello: its number is the code of the status line.
#[derive(Clone, Copy, Debug, PartialEq, Eq, Error)]
pub enum Status {
    /// 200: the hello is accepted.
    #[error("200")]
    Accepted,
    /// 300: all seats are taken.
    #[error("300")]
    TryLater,
    /// 501: a line is too long, or the first isn't a hello's.
    #[error("501")]
    Protocol,
    /// 502: the version is neither 2.0 nor 2.1.
    #[error("502")]
    Version,
    /// 503: the hello is for another receiver.
    #[error("503")]
    LocalName,
    /// 504: the sender isn't configured.
    #[error("504")]
    RemoteName,
}

/// Why a session is over.
#[derive(Clone, Copy, Debug, PartialEq, Eq)]
pub(crate) enum End {
    Refused(Status),
    Wire(WireCause),
    PeerError,
    TimedOut,
}

impl End {
    /// The same as the cause of a fault.
    pub(crate) fn cause(self) -> SessionCause
        ensures { result ≡ cause_of self }
    {
        match self {
            End::Refused(status) => SessionCause::Refused(status),
            End::Wire(wire) => SessionCause::Wire(wire),
            End::PeerError => SessionCause::PeerError,
            End::TimedOut => SessionCause::TimedOut,
        }
    }
}

/// Why a session ends, or why a piece isn't taken.
#[derive(Clone, Copy, Debug, PartialEq, Eq, Error)]
pub enum SessionCause {
    /// The hello was refused.
    #[error("refused {0}")]
    Refused(Status),
    /// The stream of messages can't be read on; never `WireCause::NoMemory`.
    #[error("{0}")]
    Wire(WireCause),
    /// The peer sent an error message.
    #[error("the peer reports an error")]
    PeerError,
    /// An allocation failed. The session is as before the call.
    #[error("out of memory")]
    NoMemory,
    /// Nothing came for too long.
    #[error("timed out")]
    TimedOut,
}

use crate::network::Network;
use std::net::SocketAddr;

/// What the program is to do. A text is that of the files that are named, or of standard input
/// where none is.
#[derive(Debug, Drop)]
pub enum Job<'a> {
    /// Replay the script on standard input.
    Replay,
    /// Write a configuration for a haproxy.cfg, which may be several files, one behind the other.
    /// `name` is the collector's, where it is given.
    Import {
        name: Option<&'a str>,
        files: Vec<&'a str>,
    },
    /// Say what is wrong with a configuration.
    Check {
        config: Option<&'a str>,
    },
    /// Read a configuration, and collect what proxies send.
    Listen {
        config: Option<&'a str>,
        endpoints: Endpoints,
    },
}

/// What is done about a hello whose peer isn't in the configuration.
#[derive(Clone, Copy, Debug, PartialEq, Eq)]
pub enum UnknownPeers {
    /// It is answered 504, which HAProxy takes as final until it is reloaded.
    Refuse,
    /// Its connection is closed without a status, so that the proxy calls again.
    Wait,
}

/// Where is to be listened, and for whom.
#[derive(Debug, Drop)]
pub struct Endpoints {
    /// Where proxies connect.
    pub peers: SocketAddr,
    /// From which networks they may; from all where this is empty.
    pub from: Vec<Network>,
    /// What is done about peers that aren't in the configuration.
    pub unknown_peers: UnknownPeers,
    /// Where operators connect, if at an address.
    pub admin: Option<SocketAddr>,
    /// The path of the socket where operators of this machine connect, if there is one.
    pub admin_socket: Option<String>,
    /// Where browsers and Prometheus connect, if anywhere.
    pub http: Option<SocketAddr>,
    /// The names of hosts for which requests over HTTP may be, beside addresses and `localhost`.
    pub http_hosts: Vec<String>,
}

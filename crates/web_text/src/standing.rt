ghost use Rattle.std.specs.Prelude.{◌≡◌};
ghost use Rattle.web_text.specs.Standing.{state_word};

use std::net::SocketAddr;

/// What stands of a peer. Moments are in ms since the start.
#[derive(Clone, Copy, Debug, PartialEq, Eq)]
pub struct PeerStanding {
    /// Whether a session of it is open now.
    pub is_connected: bool,
    /// Where its present or last connection comes from.
    pub address: Option<SocketAddr>,
    /// Since when it is connected, or away; none where it never came.
    pub since: Option<u64>,
    /// How many updates its sessions posted.
    pub updates: u64,
    /// When the last of them was posted; none where none was.
    pub last_update: Option<u64>,
    /// How many tables of its present or last connection aren't followed.
    pub unfollowed: usize,
    /// How many keys of pushed tables it is told; 0 while it is away.
    pub told: u64,
    /// How many of its updates were of rows that it learned from others.
    pub learned: u64,
    /// When it last had been told all that there was to tell; none while it is away.
    pub told_at: Option<u64>,
}

impl PeerStanding {
    /// Its state in a word: `connected`; `away` where it came before; else `never`.
    pub fn state(&self) -> &'static str
        ensures { result.now ≡ state_word self.now }
    {
        if self.is_connected {
            "connected"
        } else if self.since.is_some() {
            "away"
        } else {
            "never"
        }
    }
}

/// A configured column that a peer's definition of a followed table doesn't bring.
#[derive(Debug, Drop)]
pub struct NotSent {
    /// The table, by its name.
    pub table: Vec<u8>,
    /// Which column that is, and why, in words.
    pub reason: String,
}

/// What stands of a collector beside its book.
#[derive(Debug, Drop)]
pub struct Standing {
    /// The version of the program.
    pub version: &'static str,
    /// From which commit the program was proved; nothing where that isn't known.
    pub commit: String,
    /// The time since the start, in ms.
    pub now: u64,
    /// How many configured peers are connected.
    pub connected: usize,
    /// How many updates of followed tables were posted.
    pub updates: u64,
    /// How many batches were posted for peers.
    pub posts: u64,
    /// How many workers may post.
    pub seats: u64,
    /// How many connections wait for their hello.
    pub waiting: usize,
    /// How many connections were closed before they were served.
    pub refused: u64,
    /// The resident memory of the process, in bytes, where it is known.
    pub memory: Option<u64>,
    /// How long processors worked for the process, in ms, where it is known.
    pub processor: Option<u64>,
    /// When the process began, in ms since 1970, where it is known.
    pub began: Option<u64>,
    /// How many descriptors the process has open, where it is known.
    pub descriptors: Option<u64>,
    /// How many lines of the log were lost.
    pub lost_lines: u64,
    /// Those of the configuration, in its order.
    pub peers: Vec<PeerStanding>,
    /// How many keys each of them is told of each pushed table: by peer, then by the line that
    /// pushes.
    pub told: Vec<Vec<u64>>,
    /// Which configured columns each of them doesn't send, by peer.
    pub not_sent: Vec<Vec<NotSent>>,
    /// How many updates came in each of the last seconds, the oldest first.
    pub rates: Vec<u64>,
}

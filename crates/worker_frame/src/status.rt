//! What an admin asks for that a gate tells.

/// What an admin asks for that a gate tells.
#[derive(Clone, Copy, Debug, PartialEq, Eq)]
pub enum Status {
    /// The commands, a line each.
    Help,
    /// The collector's counters.
    Info,
    /// The peers, a line each.
    Peers,
    /// The tables of a peer, by its place in the configuration.
    Tables(usize),
}

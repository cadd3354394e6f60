//! What is left to do.

use agg_types::Config;
use command_line::Endpoints;

/// What is left to do once the words of a command line were read.
#[derive(Debug, Drop)]
pub enum Prepared {
    /// Nothing: the program ends with this status.
    Ended(u8),
    /// To collect what proxies send.
    Collect(Asked),
}

/// By which configuration is to be collected, and where.
#[derive(Debug, Drop)]
pub struct Asked {
    pub config: Config,
    pub endpoints: Endpoints,
}

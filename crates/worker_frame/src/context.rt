//! What workers stand on, and what they serve.

use hub::{Hub, Naming};
use std::alloc::Global;
use std::sync::Wait;

/// What all workers of a collector share.
#[derive(Drop)]
pub struct Context<'a, J: Naming, H: Wait + Drop, R, C, G> {
    /// What lets a worker wait.
    pub rt: &'a R,
    pub alloc: Global,
    pub hub: &'a Hub<J, H>,
    pub clock: &'a C,
    pub gate: &'a G,
}

/// A connection: what its bytes come from, and where its answers go.
#[derive(Drop)]
pub struct Link<S, W> {
    pub source: S,
    pub writer: W,
}

//! The place of a connection among those that wait for their hello.

use crate::connections::Connections;
use crate::ticks::Ticks;
use std::sync::Wait;

/// The place of a connection among those that wait for their hello. It goes with its connection,
/// however that ends: served, turned away, or dropped since no thread started for it.
pub(crate) struct Waiter<'a, R: Wait> {
    pub clock: &'a Ticks<R>,
    pub connections: &'a Connections,
    // its number among the connections of peers
    pub id: u64,
}

impl<'a, R: Wait> Drop for Waiter<'a, R> {
    fn drop(self) {
        let Waiter {
            clock,
            connections,
            id,
        } = self;
        connections.stop_waiting(&clock.rt, id);
    }
}

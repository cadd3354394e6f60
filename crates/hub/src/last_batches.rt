//! What comes back of what a pass posted.

ghost use Rattle.std.specs.Prelude.{◌≡◌, [], IfSome};

use crate::batch::Batch;
use agg_types::Whats;
use std::sync::Arc;

/// Another owner of each of a seat's last two batches, which both copies of the book share too.
pub struct LastBatches {
    older: Option<Arc<Batch>>,
    newer: Option<Arc<Batch>>,
}

impl Drop for LastBatches {
    fn drop(self) {
        let LastBatches { older: _, newer: _ } = self;
    }
}

impl LastBatches {
    /// Nothing was posted yet.
    pub fn new() -> LastBatches {
        LastBatches {
            older: None,
            newer: None,
        }
    }

    /// Keeps the batch that was posted last, if it could be shared.
    pub fn keep(&mut self, batch: Option<Arc<Batch>>) {
        let Some(batch) = batch else {
            return;
        };
        if let Some(newer) = self.newer.take() {
            self.older = Some(newer);
        }
        self.newer = Some(batch);
    }

    /// The list of the oldest batch, empty and with its room, if nobody else owns that batch any
    /// more.
    pub fn take_back(&mut self) -> Option<Whats>
        ensures { IfSome result (λ whats. whats ≡ []) }
    {
        let oldest = match self.older.take() {
            Some(older) => older,
            None => self.newer.take()?,
        };
        match Arc::try_unwrap(oldest) {
            Ok(batch) => Some(batch.emptied()),
            Err(shared) => {
                self.older = Some(shared);
                None
            }
        }
    }
}

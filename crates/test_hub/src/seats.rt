//! Seats and places, until none is left.

use anyhow::Result;
use hub::{Hub, Naming};
use std::sync::Wait;
use test_hub_calls::{leave, sit};

/// Takes seats until none is left, and says how many there were; the first then leaves.
pub fn fill<J: Naming, H: Wait + Drop, W: Wait>(rt: &W, hub: &Hub<J, H>) -> Result<u32> {
    let first = sit(rt, hub)?;
    let mut count = 1u32;
    for _ in 0..600 {
        if hub.seat(rt).is_err() {
            break;
        }
        count = count.saturating_add(1);
    }
    leave(rt, hub, first)?;
    Ok(count)
}

/// Whether another lens is to be had.
pub fn has_place<J: Naming, H: Wait + Drop, W: Wait>(rt: &W, hub: &Hub<J, H>) -> bool {
    hub.lens(rt).is_ok()
}

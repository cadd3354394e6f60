//! The same filter, added by two passes.

ghost use Rattle.std.specs.Prelude.{◌≡◌};

use crate::fleet::Batch;
use crate::shown::seen;
use anyhow::Result;
use hub::{Hub, Naming, Opening};
use std::alloc::Global;
use std::sync::Wait;
use test_hub_calls::{lens, post, sit};

/// Two passes post the same filter. Both are taken, and one filter is there.
pub fn add_twice<J: Naming, R: Print + Wait>(rt: &R, alloc: Global, opening: Opening) -> Result<()>
    requires { opening.of ≡ J.book }
{
    let hub = Hub::<J, &R>::new(alloc, rt, opening, 1)?;
    let mut one = sit(rt, &hub)?;
    let mut other = sit(rt, &hub)?;
    let first = post(
        rt,
        alloc,
        &hub,
        &mut one,
        Batch::Filter(b"same").made(alloc)?,
    )?;
    let second = post(
        rt,
        alloc,
        &hub,
        &mut other,
        Batch::Filter(b"same").made(alloc)?,
    )?;
    let shown = seen(&mut lens(rt, &hub)?, 1)?;
    println!(rt;
        "the same filter by two passes: {} and {} events; {shown}",
        first.len(),
        second.len()
    )?;
    Ok(())
}

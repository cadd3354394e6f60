//! Calls of a hub that are made once more where an allocation failed.
//!
//! What they leave is looked at first: after NoMemory nothing was stored, and what is pending isn't
//! shown yet. A note tells which of the two was met.

ghost use Rattle.std.specs.Prelude.{◌≡◌, IfOk, IfSome};

use crate::shown::seen;
use agg_types::Whats;
use anyhow::{Result, anyhow, ensure};
use hub::{Hub, Lens, Naming, Pass, PostFault, Receipt};
use std::alloc::Global;
use std::sync::Wait;
use test_hub_calls::{flush, leave_once, post_again};

/// Posts a batch, and shows what is pending of it by an empty batch.
pub fn post<J: Naming, H: Wait + Drop, W: Wait + Print>(
    rt: &W,
    alloc: Global,
    hub: &Hub<J, H>,
    pass: &mut Pass,
    lens: &mut Lens,
    whats: Whats,
) -> Result<Receipt>
    requires { pass.old.seen.of ≡ hub.now.of }
    ensures pass { IfOk result (λ r. (r.of ≡ hub.now.of) × (pass.new.seen.of ≡ hub.now.of)) }
    ensures lens { IfOk result (λ r. lens.new.seen.of ≡ lens.old.seen.of) }
{
    ensure!(hub.allows(&whats), "it does not fit");
    let before = seen(lens, pass.seat())?;
    let count = whats.len();
    match hub.post(rt, pass, whats) {
        Ok(receipt) => Ok(receipt),
        Err(PostFault::NoMemory(back)) => {
            ensure!(back.len() == count, "a part of the batch was lost");
            before.stands(lens)?;
            println!(rt; "again: a post: NoMemory")?;
            post_again(rt, alloc, hub, pass, back)
        }
        Err(PostFault::Pending) => {
            before.stands(lens)?;
            println!(rt; "again: a post: Pending")?;
            flush(rt, alloc, hub, pass)
        }
        Err(_) => Err(anyhow!("refused")),
    }
}

/// A seat leaves. None where that is pending.
pub fn leave<J: Naming, H: Wait + Drop, W: Wait>(
    rt: &W,
    hub: &Hub<J, H>,
    pass: Pass,
    lens: &mut Lens,
) -> Result<Option<Receipt>>
    requires { pass.seen.of ≡ hub.now.of }
    ensures pass { IfOk result (λ left. IfSome left (λ r. r.of ≡ hub.now.of)) }
    ensures lens { IfOk result (λ left. lens.new.seen.of ≡ lens.old.seen.of) }
{
    let before = seen(lens, pass.seat())?;
    match hub.leave(rt, pass) {
        Ok(Some(receipt)) => Ok(Some(receipt)),
        Ok(None) => {
            before.stands(lens)?;
            Ok(None)
        }
        Err((pass, PostFault::NoMemory(_))) => {
            before.stands(lens)?;
            leave_once(rt, hub, pass)
        }
        Err(_) => Err(anyhow!("it stays")),
    }
}

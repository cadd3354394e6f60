//! Two seats that open one peer.

ghost use Rattle.std.specs.Prelude.{◌≡◌, IfOk};
ghost use Rattle.std.specs.List.{All};
ghost use Rattle.hub.specs.Roll.{MayPost};
ghost use Rattle.test_hub.specs.Seen.{IsSessionShown};

use agg_types::{What, Whats};
use anyhow::{Result, anyhow, ensure};
use hub::{Hub, Lens, Naming, Pass, PostFault, Receipt};
use std::alloc::Global;
use std::sync::Wait;
use test_hub_calls::{batch, post, sit};
use test_support::{alone, put};

/// A seat that opened a peer.
fn open<J: Naming, H: Wait + Drop, W: Wait>(
    rt: &W,
    alloc: Global,
    hub: &Hub<J, H>,
    peer: usize,
) -> Result<Pass>
    ensures { IfOk result (λ p. p.seen.of ≡ hub.now.of) }
{
    let mut pass = sit(rt, hub)?;
    post(rt, alloc, hub, &mut pass, alone(alloc, What::Open(peer))?)?;
    Ok(pass)
}

/// Posts what another seat is to have made too late: by which seat, and what is shown.
fn post_late<J: Naming, H: Wait + Drop, W: Wait>(
    rt: &W,
    hub: &Hub<J, H>,
    pass: &mut Pass,
    whats: Whats,
) -> Result<(u64, Receipt)>
    requires { pass.old.seen.of ≡ hub.now.of }
    ensures { IfOk result (λ r. (r.1.of ≡ hub.now.of) × (pass.new.seen.of ≡ hub.now.of)) }
{
    if !hub.allows(&whats) {
        return Err(anyhow!("it does not fit"));
    }
    match hub.post(rt, pass, whats) {
        Err(PostFault::Replaced { by, shown }) => Ok((by, shown)),
        _ => Err(anyhow!("not replaced")),
    }
}

/// The session in force of a peer, as a look shows it.
fn session_of(lens: &mut Lens, peer: usize) -> Result<Option<u64>>
    ensures { lens.new.seen.of ≡ lens.old.seen.of }
{
    let Some(look) = lens.look() else {
        return Err(anyhow!("no look"));
    };
    if peer >= look.book().config().peers.len() {
        return Ok(None);
    }
    Ok(look.book().session_of(peer))
}

/// Two seats open peer 0. What the first one puts then is refused; what it opens anew, and an empty
/// batch, is not.
pub fn replace<J: Naming, H: Wait + Drop, W: Wait + Print>(
    rt: &W,
    alloc: Global,
    hub: &Hub<J, H>,
    lens: &mut Lens,
) -> Result<()>
    requires { lens.old.seen.of ≡ hub.now.of }
{
    let mut first = open(rt, alloc, hub, 0)?;
    open(rt, alloc, hub, 0)?;
    let (by, shown) = post_late(rt, hub, &mut first, alone(alloc, put(alloc, 0, 0, 1)?)?)?;
    lens.learn(&shown);
    println!(rt; "replaced by {by}, in force {:?}", session_of(lens, 0)?)?;
    post(rt, alloc, hub, &mut first, Whats::new(alloc))?;
    println!(rt; "an empty batch is taken")?;
    reopen(rt, alloc, hub, first, lens)
}

/// A seat that was replaced opens its peer anew, and puts.
fn reopen<J: Naming, H: Wait + Drop, W: Wait + Print>(
    rt: &W,
    alloc: Global,
    hub: &Hub<J, H>,
    mut pass: Pass,
    lens: &mut Lens,
) -> Result<()>
    requires pass { pass.seen.of ≡ hub.now.of }
    requires lens { lens.old.seen.of ≡ hub.now.of }
{
    let whats = batch(alloc, 0, 3)?;
    ensure!(hub.allows(&whats), "it does not fit");
    let session = session_behind(rt, hub, &mut pass, lens, whats, 0)?;
    println!(rt; "opened anew: in force {session:?}")?;
    Ok(())
}

/// Posts a batch, and has a lens learn the receipt: the session in force of a peer, as its next
/// look shows it. Whatever other threads post meanwhile, it is that of a list that has the batch.
fn session_behind<J: Naming, H: Wait + Drop, W: Wait>(
    rt: &W,
    hub: &Hub<J, H>,
    pass: &mut Pass,
    lens: &mut Lens,
    whats: Whats,
    peer: usize,
) -> Result<Option<u64>>
    requires pass { pass.old.seen.of ≡ hub.now.of }
    requires lens { lens.old.seen.of ≡ hub.now.of }
    requires fits { All (MayPost hub.now.config) whats }
    ensures { IfOk result (IsSessionShown lens.old.seen pass.old whats peer) }
{
    let Ok(receipt) = hub.post(rt, pass, whats) else {
        return Err(anyhow!("refused"));
    };
    lens.learn(&receipt);
    let Some(look) = lens.look() else {
        return Err(anyhow!("no look"));
    };
    hub::laws::a_look_shows_what_was_posted();
    Ok(look.book().session_of(peer))
}

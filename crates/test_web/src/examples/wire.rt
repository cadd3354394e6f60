//! Bytes of the peers protocol: integers, messages, and a peer's session.

use anyhow::Result;
use peers_msg::{Feed, get_int, put_int};
use session_core::Session;
use std::alloc::Global;
use test_support::{HELLO, TWO_PROXIES, config};

/// Two and a half messages: a heartbeat, a request, and the class of a third.
const PIECES: [&[u8]; 2] = [b"\x00", b"\x04\x00\x00\x00"];

/// What a peer sends: its hello; the definition of the table `t` under the id 1, and an update with
/// the id 1, by which 10.0.0.1 has 5.
const SENT: [&[u8]; 2] = [
    HELLO,
    b"\x0a\x82\x07\x01\x01t\x04\x04\x04\x00\x0a\x80\x09\x00\x00\x00\x01\x0a\x00\x00\x01\x05",
];

/// `put_int` appends the spelling of a number, and `get_int` reads it: 1,000 is 248 + 16 * 47.
fn spell(rt: &impl Print, alloc: Global) -> Result<()> {
    let mut bytes = Vec::new(alloc);
    put_int(1000, &mut bytes)?;
    println!(rt; "put_int: {:?}", bytes.as_slice())?;
    if let Ok(Some((number, len))) = get_int(bytes.as_slice()) {
        println!(rt; "get_int: {number} in {len} bytes")?;
    }
    Ok(())
}

/// `Feed::feed` answers the messages that a piece makes whole.
fn feed(rt: &impl Print, alloc: Global) -> Result<()> {
    let mut feed = Feed::new(alloc);
    for piece in PIECES {
        let messages = feed.feed(piece)?;
        println!(rt; "feed: {} messages", messages.len())?;
        for message in messages.as_slice() {
            println!(rt; "  {message:?}")?;
        }
    }
    Ok(())
}

/// `Session::feed` answers how many events a piece tells of, what is replied to it, and what is
/// acknowledged.
fn talk(rt: &impl Print, alloc: Global) -> Result<()> {
    let config = config(alloc, TWO_PROXIES)?;
    let mut session = Session::accept(alloc, true, 0);
    for piece in SENT {
        let batch = session.feed(&config, piece, 0)?;
        let replies = batch.replies().escape_ascii();
        let acks = batch.acks().escape_ascii();
        println!(rt;
            "session: {} events, [{replies}] [{acks}]",
            batch.facts().len()
        )?;
    }
    Ok(())
}

/// Shows each.
pub fn show(rt: &impl Print, alloc: Global) -> Result<()> {
    spell(rt, alloc)?;
    feed(rt, alloc)?;
    talk(rt, alloc)
}

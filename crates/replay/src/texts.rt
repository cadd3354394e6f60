//! What a step prints.

ghost use Rattle.std.specs.Prelude.{◌≡◌, ◌++◌, OnOk};
ghost use Rattle.replay.specs.Texts.{cause_text, conn_text, end_text, sent_text, status_text};
ghost use Rattle.replay.specs.Texts.{wire_text};

use agg_types::NoMemory;
use key_text::{append_number, append_text};
use peers_msg::WireCause;
use session_core::{SessionCause, Status};
use std::alloc::Global;

/// Appends the line of a connection that came.
pub fn append_conn(conn: u64, out: &mut Vec<u8>) -> Result<(), NoMemory>
    ensures { OnOk result (out.new.items ≡ out.old.items ++ conn_text conn) }
{
    append_text(b"conn ", out)?;
    append_number(u128::from(conn), out)?;
    append_text(b"\n", out)
}

/// Appends the line of what is sent, if anything is.
pub fn append_sent(alloc: Global, conn: u64, sent: &[u8], out: &mut Vec<u8>) -> Result<(), NoMemory>
    ensures { OnOk result (out.new.items ≡ out.old.items ++ sent_text conn sent.now) }
{
    if sent.is_empty() {
        return Ok(());
    }
    let digits = hex::encode(alloc, sent)?;
    append_text(b"send ", out)?;
    append_number(u128::from(conn), out)?;
    append_text(b" ", out)?;
    append_text(digits.as_bytes(), out)?;
    append_text(b"\n", out)
}

/// Appends the line of a session that ended.
pub fn append_end(conn: u64, cause: SessionCause, out: &mut Vec<u8>) -> Result<(), NoMemory>
    ensures { OnOk result (out.new.items ≡ out.old.items ++ end_text conn cause) }
{
    append_text(b"end ", out)?;
    append_number(u128::from(conn), out)?;
    append_cause(cause, out)?;
    append_text(b"\n", out)
}

// Appends why a session ended, behind a space.
fn append_cause(cause: SessionCause, out: &mut Vec<u8>) -> Result<(), NoMemory>
    ensures { OnOk result (out.new.items ≡ out.old.items ++ cause_text cause) }
{
    match cause {
        SessionCause::Refused(status) => {
            append_text(b" Refused ", out)?;
            append_text(status_text(status), out)
        }
        SessionCause::Wire(wire) => {
            append_text(b" Wire ", out)?;
            append_text(wire_text(wire), out)
        }
        SessionCause::PeerError => append_text(b" PeerError", out),
        SessionCause::NoMemory => append_text(b" NoMemory", out),
        SessionCause::TimedOut => append_text(b" TimedOut", out),
    }
}

fn status_text(status: Status) -> &'static [u8]
    ensures { result.now ≡ status_text status }
{
    match status {
        Status::Accepted => b"200",
        Status::TryLater => b"300",
        Status::Protocol => b"501",
        Status::Version => b"502",
        Status::LocalName => b"503",
        Status::RemoteName => b"504",
    }
}

fn wire_text(wire: WireCause) -> &'static [u8]
    ensures { result.now ≡ wire_text wire }
{
    match wire {
        WireCause::TooLong => b"TooLong",
        WireCause::BadInteger => b"BadInteger",
        WireCause::BadField => b"BadField",
        WireCause::NoMemory => b"NoMemory",
    }
}

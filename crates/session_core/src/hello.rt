//! The hello: three lines that open a session.

ghost use Rattle.std.specs.Prelude.{◌≡◌, ◌==◌, position, IfOk, IfSome, length, ◌<◌};
ghost use Rattle.session_core.specs.Hello.{seen, line_at, without_cr, version_fault, sender_of};
ghost use Rattle.session_core.specs.Hello.{hello_of, receiver_line, sender_line, peer_of};

use crate::Status;
use agg_types::limits::LONGEST_HELLO_LINE;
use agg_types::{Config, Declared, Name};

/// What the first line begins with.
const GREETING: &[u8] = b"HAProxyS ";

/// The peer that a hello names and the bytes after the hello; `None` where the hello isn't whole.
///
/// The fault is that of the first line that has one.
#[tactic(auto, unfolding(crate::specs::Hello::hello_of))]
pub(crate) fn hello_of<'a>(
    config: &Config,
    seated: bool,
    bytes: &'a [u8],
) -> Result<Option<(usize, &'a [u8])>, Status>
    ensures { seen (λ x. (x.0, x.1.now)) result
        ≡ hello_of config.now.me config.now.peers seated bytes.now }
{
    let Some((line, rest)) = line_at(bytes)? else {
        return Ok(None);
    };
    if let Some(fault) = version_fault(line) {
        return Err(fault);
    }
    receiver_line(config, seated, rest)
}

/// The same from the second line on, which names the receiver.
#[tactic(auto, unfolding(crate::specs::Hello::receiver_line))]
fn receiver_line<'a>(
    config: &Config,
    seated: bool,
    bytes: &'a [u8],
) -> Result<Option<(usize, &'a [u8])>, Status>
    ensures { seen (λ x. (x.0, x.1.now)) result
        ≡ receiver_line config.now.me config.now.peers seated bytes.now }
{
    let Some((line, rest)) = line_at(bytes)? else {
        return Ok(None);
    };
    if !config.me.is(line) {
        return Err(Status::LocalName);
    }
    sender_line(config, seated, rest)
}

/// The same from the third line on, which names the sender.
#[tactic(auto, unfolding(crate::specs::Hello::sender_line))]
fn sender_line<'a>(
    config: &Config,
    seated: bool,
    bytes: &'a [u8],
) -> Result<Option<(usize, &'a [u8])>, Status>
    ensures { seen (λ x. (x.0, x.1.now)) result ≡ sender_line config.now.peers seated bytes.now }
{
    let Some((line, rest)) = line_at(bytes)? else {
        return Ok(None);
    };
    let Some(peer) = peer_of(&config.peers, sender_of(line)) else {
        return Err(Status::RemoteName);
    };
    if !seated {
        return Err(Status::TryLater);
    }
    Ok(Some((peer, rest)))
}

/// The line at the front without its LF and a CR before it, and the bytes after it.
#[tactic(auto, unfolding(crate::specs::Hello::line_at))]
fn line_at(bytes: &[u8]) -> Result<Option<(&[u8], &[u8])>, Status>
    ensures { seen (λ x. (x.0.now, x.1.now)) result ≡ line_at bytes.now }
{
    match place_of(b'\n', bytes) {
        None => {
            if bytes.len() > LONGEST_HELLO_LINE {
                return Err(Status::Protocol);
            }
            Ok(None)
        }
        Some(end) => {
            if end > LONGEST_HELLO_LINE {
                return Err(Status::Protocol);
            }
            Ok(Some((without_cr(&bytes[..end]), &bytes[end + 1..])))
        }
    }
}

fn without_cr(line: &[u8]) -> &[u8]
    ensures { result.now ≡ without_cr line.now }
{
    match line {
        [front @ .., b'\r'] => front,
        _ => line,
    }
}

#[tactic(auto, unfolding(crate::specs::Hello::version_fault))]
fn version_fault(line: &[u8]) -> Option<Status>
    ensures { result ≡ version_fault line.now }
{
    let Some(version) = line.strip_prefix(GREETING) else {
        return Some(Status::Protocol);
    };
    if version == b"2.0".as_slice() || version == b"2.1".as_slice() {
        None
    } else {
        Some(Status::Version)
    }
}

/// The line up to its first space.
fn sender_of(line: &[u8]) -> &[u8]
    ensures { result.now ≡ sender_of line.now }
{
    match place_of(b' ', line) {
        None => line,
        Some(end) => &line[..end],
    }
}

fn peer_of(peers: &Declared<Name>, sender: &[u8]) -> Option<usize>
    ensures { result ≡ peer_of peers.now sender.now }
{
    peers.position(sender)
}

/// Where a byte stands first.
fn place_of(wanted: u8, bytes: &[u8]) -> Option<usize>
    ensures first { result ≡ position (λ byte. byte == wanted) bytes.now }
    ensures within { IfSome result (λ place. place < length bytes.now) }
{
    bytes.iter().position(|byte| *byte == wanted)
}

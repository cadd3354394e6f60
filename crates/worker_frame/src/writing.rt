//! Sending.

ghost use Rattle.std.specs.Prelude.{◌≡◌, ◌≤◌, [], length, take, drop, IfOk, OnErr};
ghost use Rattle.std.specs.Io.KnownBytes.{Appends};
ghost use Rattle.worker_frame.specs.Writing.{Sends};

use std::io::{ErrorKind, Write};
use thiserror::Error;

/// A write that failed.
#[derive(Clone, Copy, Debug, PartialEq, Eq, Error)]
#[error("write failed")]
pub struct WriteFailed;

/// The first bytes.
pub fn front(bytes: &[u8], count: usize) -> &[u8]
    requires { count ≤ length bytes.now }
    ensures { result.now ≡ take count bytes.now }
{
    &bytes[..count]
}

/// The bytes behind the first.
fn behind(bytes: &[u8], count: usize) -> &[u8]
    requires { count ≤ length bytes.now }
    ensures { result.now ≡ drop count bytes.now }
{
    &bytes[count..]
}

/// Writes once, and says how many bytes were taken: none where the call was interrupted.
#[tactic(auto, using(crate::proofs::Sent::kept_none))]
fn write_once<W: Write>(writer: &mut W, bytes: &[u8]) -> Result<usize, WriteFailed>
    ensures within { IfOk result (λ count. count ≤ length bytes.now) }
    ensures ok { IfOk result (λ count. Appends (W.contents writer.old) (W.contents writer.new)
        (take count bytes.now)) }
    ensures err { OnErr result (Appends (W.contents writer.old) (W.contents writer.new) []) }
{
    match writer.write(bytes) {
        Ok(0) => Err(WriteFailed),
        Ok(count) => Ok(count),
        Err(fault) => {
            if fault.kind() == ErrorKind::Interrupted {
                Ok(0)
            } else {
                Err(WriteFailed)
            }
        }
    }
}

/// Writes all of the bytes, over as many writes as that takes. An interrupted one is made again.
pub fn send<W: Write>(writer: &mut W, bytes: &[u8]) -> Result<(), WriteFailed>
    ensures { Sends (W.contents writer.old) (W.contents writer.new) bytes.now result }
{
    let mut rest = bytes;
    for _ in 0..u64::MAX {
        if rest.is_empty() {
            return Ok(());
        }
        match write_once(writer, rest) {
            Ok(count) => rest = behind(rest, count),
            Err(WriteFailed) => return Err(WriteFailed),
        }
    }
    Err(WriteFailed)
}

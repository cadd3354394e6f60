//! The key and the values of an update.

ghost use Rattle.std.specs.Prelude.{◌≡◌, ◌<◌, ◌^◌, ◌%◌, IfOk};
ghost use Rattle.std.specs.Option.{option_map};
ghost use Rattle.peers_msg.specs.Payload.{number_at, string_at};
ghost use Rattle.update_values.specs.Values.{bytes_at, text_at, key_at, key_of_length, elapsed_of};

use agg_types::{Key, KeyKind, KeyLength, NoMemory};
use peers_msg::get_int;
use std::alloc::Global;

/// From here to 2^32 - 1 an elapsed time is one that is below 0, in ms.
const FIRST_BELOW_ZERO: u64 = (1 << 32) - 60_000;

/// The key at the front of an update's bytes, and the bytes after it; `None` where it is cut.
#[inline]
pub fn key_at(kind: KeyKind, bytes: &[u8]) -> Option<(&[u8], &[u8])>
    ensures { option_map (λ x. (x.0.now, x.1.now)) result ≡ key_at kind bytes.now }
{
    key_of_length(kind.length(), bytes)
}

/// The key of this length at the front, and the bytes after it; `None` where it is cut.
#[inline]
pub fn key_of_length(length: KeyLength, bytes: &[u8]) -> Option<(&[u8], &[u8])>
    ensures { option_map (λ x. (x.0.now, x.1.now)) result ≡ key_of_length length bytes.now }
{
    match length {
        KeyLength::Exactly(exact) => bytes_at(exact, bytes),
        KeyLength::AtMost(most) => text_at(most, bytes),
    }
}

#[inline]
fn bytes_at(len: u64, bytes: &[u8]) -> Option<(&[u8], &[u8])>
    ensures { option_map (λ x. (x.0.now, x.1.now)) result ≡ bytes_at len bytes.now }
{
    if (bytes.len() as u64) < len {
        return None;
    }
    Some(bytes.split_at(len as usize))
}

/// The length at the front and so many bytes, and the bytes after them; `None` where it is cut.
#[tactic(auto, unfolding(peers_msg::specs::Payload::string_at))]
pub(crate) fn string_at(bytes: &[u8]) -> Option<(&[u8], &[u8])>
    ensures { option_map (λ x. (x.0.now, x.1.now)) result ≡ string_at bytes.now }
{
    let (size, rest) = number_at(bytes)?;
    bytes_at(size, rest)
}

#[tactic(auto, unfolding(crate::specs::Values::text_at))]
fn text_at(len: u64, bytes: &[u8]) -> Option<(&[u8], &[u8])>
    ensures { option_map (λ x. (x.0.now, x.1.now)) result ≡ text_at len bytes.now }
{
    let (text, rest) = string_at(bytes)?;
    let size = text.len() as u64;
    if len < size {
        Some((&text[..len as usize], rest))
    } else {
        Some((text, rest))
    }
}

#[inline]
#[tactic(auto, unfolding(peers_msg::specs::Payload::number_at))]
pub(crate) fn number_at(bytes: &[u8]) -> Option<(u64, &[u8])>
    ensures { option_map (λ x. (x.0, x.1.now)) result ≡ number_at bytes.now }
{
    match get_int(bytes) {
        Ok(Some((number, len))) => Some((number, &bytes[len..])),
        Ok(None) | Err(_) => None,
    }
}

/// The elapsed time of a rate, in ms. HAProxy's ticks have 32 bits, and where the clocks of its
/// threads differ it sends a time that is a little below 0 as 2^32 less so much. That is 0 here, as
/// it is for HAProxy's own receivers, which count the events of such a rate.
#[inline]
pub(crate) fn elapsed_of(elapsed: u64) -> u64
    ensures { result ≡ elapsed_of elapsed }
{
    if elapsed >= FIRST_BELOW_ZERO && elapsed < 1 << 32 {
        0
    } else {
        elapsed
    }
}

/// The key of these bytes. Four, as an IPv4 address has, need no copy of unknown length.
#[inline]
pub fn key_of(alloc: Global, bytes: &[u8]) -> Result<Key, NoMemory>
    ensures { IfOk result (λ key. key ≡ bytes.now) }
{
    match bytes {
        [a, b, c, d] => Key::copy(alloc, &[*a, *b, *c, *d]),
        _ => Key::copy(alloc, bytes),
    }
}

/// A number modulo 2^32.
#[inline]
pub(crate) fn low_word(number: u64) -> u32
    ensures { result ≡ number % 2 ^ 32 }
{
    (number % (1 << 32)) as u32
}

//! The fields of a message's payload.

ghost use Rattle.std.specs.Prelude.{◌≡◌, ◌<◌, ◌≤◌, length, drop, IfOk, IfSome, option_map};
ghost use Rattle.peers_msg.specs.Gives.{Gives, GivesBefore};
ghost use Rattle.peers_msg.specs.Payload.{number_at, word_at, word_if, string_at};
ghost use Rattle.peers_msg.specs.Payload.{definition_of, switch_of, acked_of, update_of};
ghost use Rattle.peers_msg.specs.declared.message.Message.TheVariants as messages;

use crate::integer::read_int;
use crate::parameters::parameters;
use crate::{Definition, WireCause};
use bytes::Bytes;
use std::alloc::Global;

/// Takes the encoded integer at the front.
#[inline]
#[tactic(auto, unfolding(crate::specs::Payload::number_at))]
fn take_number(rest: &mut Bytes) -> Result<u64, WireCause>
    ensures { GivesBefore result rest.new (number_at rest.old) }
{
    match read_int(rest.as_slice()) {
        Ok(Some((number, len))) => {
            rest.advance(len);
            Ok(number)
        }
        Ok(None) => Err(WireCause::BadField),
        Err(_) => Err(WireCause::BadField),
    }
}

/// The four bytes at the front, big-endian.
#[inline]
#[tactic(auto, unfolding(crate::specs::Payload::word_at))]
fn word(bytes: &[u8]) -> Option<u32>
    ensures exact { option_map (λ word. (word, drop 4 bytes.now)) result ≡ word_at bytes.now }
    ensures long { IfSome result (λ _. 4 ≤ length bytes.now) }
{
    if bytes.len() < 4 {
        return None;
    }
    Some(u32::from_be_bytes([bytes[0], bytes[1], bytes[2], bytes[3]]))
}

/// Four bytes where a word is to stand, and how many bytes that takes.
#[inline]
fn word_if(wanted: bool, bytes: &[u8]) -> Option<(Option<u32>, usize)>
    ensures exact { option_map (λ x. (x.0, drop x.1 bytes.now)) result ≡ word_if wanted bytes.now }
    ensures fits { IfSome result (λ x. x.1 ≤ length bytes.now) }
{
    if wanted {
        let word = word(bytes)?;
        Some((Some(word), 4))
    } else {
        Some((None, 0))
    }
}

/// Takes the length at the front and so many bytes.
#[tactic(auto, unfolding(crate::specs::Payload::string_at))]
fn take_string(rest: &mut Bytes) -> Result<Bytes, WireCause>
    ensures { GivesBefore result rest.new (string_at rest.old) }
{
    let len = take_number(rest)? as usize;
    if rest.len() < len {
        return Err(WireCause::BadField);
    }
    Ok(rest.split_to(len)?)
}

/// The encoded integer at the front, and the bytes after it.
#[tactic(auto, unfolding(crate::specs::Payload::number_at))]
pub(crate) fn number(bytes: &[u8]) -> Option<(u64, &[u8])>
    ensures exact { option_map (λ x. (x.0, x.1.now)) result ≡ number_at bytes.now }
    ensures shorter { IfSome result (λ x. length x.1.now < length bytes.now) }
{
    match read_int(bytes) {
        Ok(Some((number, len))) => Some((number, &bytes[len..])),
        Ok(None) => None,
        Err(_) => None,
    }
}

/// Reads a definition.
#[tactic(auto, unfolding(crate::specs::Payload::definition_of))]
pub(crate) fn read_definition(alloc: Global, payload: Bytes) -> Result<Definition, WireCause>
    ensures { Gives result (definition_of payload) }
{
    let mut rest = payload;
    let id = take_number(&mut rest)?;
    let name = take_string(&mut rest)?;
    let kind = take_number(&mut rest)?;
    let len = take_number(&mut rest)?;
    let bits = take_number(&mut rest)?;
    let expiry = take_number(&mut rest)?;
    let (periods, arrays) = parameters(alloc, rest.as_slice())?;
    Ok(Definition {
        id,
        name,
        kind,
        len,
        bits,
        expiry,
        periods,
        arrays,
    })
}

/// The table id of a switch.
#[tactic(auto, unfolding(crate::specs::Payload::switch_of))]
pub(crate) fn switch_of(payload: &[u8]) -> Option<u64>
    ensures { option_map (λ id. messages.Switch id) result ≡ switch_of payload.now }
{
    let (id, _) = number(payload)?;
    Some(id)
}

/// The table id and the last update id of an acknowledgement.
#[tactic(auto, unfolding(crate::specs::Payload::acked_of))]
pub(crate) fn acked_of(payload: &[u8]) -> Option<(u64, u32)>
    ensures { option_map (λ x. messages.Acked x.0 x.1) result ≡ acked_of payload.now }
{
    let (id, rest) = number(payload)?;
    let last = word(rest)?;
    Some((id, last))
}

/// The id and the remaining life of an update, where it has them, and how many bytes they take.
#[inline]
#[tactic(auto, unfolding(crate::specs::Payload::update_of))]
pub(crate) fn update_of(
    has_id: bool,
    has_life: bool,
    payload: &[u8],
) -> Option<(Option<u32>, Option<u32>, usize)>
    ensures exact { option_map (λ x. messages.Update x.0 x.1 (drop x.2 payload.now)) result
        ≡ update_of has_id has_life payload.now }
    ensures fits { IfSome result (λ x. x.2 ≤ length payload.now) }
{
    let (id, first) = word_if(has_id, payload)?;
    let (life, second) = word_if(has_life, &payload[first..])?;
    Some((id, life, first + second))
}

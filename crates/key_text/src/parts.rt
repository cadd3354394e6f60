//! Addresses, part by part.

ghost use Rattle.std.specs.Prelude.{◌≡◌, ◌≤◌, Some, None, if◌then◌else◌, IfSome, IfOk};
ghost use Rattle.line_words.specs.Words.{parts};
ghost use Rattle.key_text.specs.Read.{all_bytes, between, group, number_up_to, octet, part_bytes};
ghost use Rattle.key_text.specs.Read.{put_behind};

use agg_types::{Items, NoMemory};
use line_words::next_part;
use std::alloc::Global;

/// A part of an address: a byte of an IPv4 address, or two bytes of an IPv6 address.
#[derive(Clone, Copy)]
pub(crate) enum Part {
    Octet,
    Group,
}

/// The bytes of an address's parts, if each part has some.
pub(crate) fn part_list(
    alloc: Global,
    part: Part,
    text: &[u8],
) -> Result<Option<Items<u8>>, NoMemory>
    ensures { IfOk result (λ found. found ≡ all_bytes part (parts (between part) text.now)) }
{
    let mut bytes = Vec::new(alloc);
    if !push_parts(part, text, &mut bytes)? {
        return Ok(None);
    }
    Ok(Some(Items::from_vec(bytes)))
}

/// Puts the bytes of an address's parts behind others, if each part has some.
pub(crate) fn push_parts(part: Part, text: &[u8], bytes: &mut Vec<u8>) -> Result<bool, NoMemory>
    ensures { IfOk result
        (λ all. put_behind bytes.old.items (all_bytes part (parts (between part) text.now))
        ≡ (if all then Some bytes.new.items else None)) }
{
    let (front, behind) = next_part(text, between(part));
    if !push_part(part, front, bytes)? {
        return Ok(false);
    }
    match behind {
        None => Ok(true),
        Some(rest) => push_parts(part, rest, bytes),
    }
}

/// Puts the bytes of a part behind others, if it has some.
pub(crate) fn push_part(part: Part, text: &[u8], bytes: &mut Vec<u8>) -> Result<bool, NoMemory>
    ensures { IfOk result (λ all. put_behind bytes.old.items (part_bytes part text.now)
        ≡ (if all then Some bytes.new.items else None)) }
{
    match part {
        Part::Octet => {
            let Some(octet) = octet(text) else {
                return Ok(false);
            };
            bytes.push(octet)?;
        }
        Part::Group => {
            let Some(group) = group(text) else {
                return Ok(false);
            };
            bytes.extend_from_slice(&group.to_be_bytes())?;
        }
    }
    Ok(true)
}

fn between(part: Part) -> u8
    ensures { result ≡ between part }
{
    match part {
        Part::Octet => b'.',
        Part::Group => b':',
    }
}

fn octet(text: &[u8]) -> Option<u8>
    ensures { result ≡ octet text.now }
{
    if text.len() > 3 {
        return None;
    }
    Some(number_up_to(10, 255, text)? as u8)
}

/// Two bytes of an IPv6 address, of 1 to 4 hexadecimal digits.
pub(crate) fn group(text: &[u8]) -> Option<u16>
    ensures { result ≡ group text.now }
{
    if text.len() > 4 {
        return None;
    }
    Some(number_up_to(16, 65_535, text)? as u16)
}

/// The number that one or more digits of a base write, up to a greatest one.
#[tactic(auto, using(crate::proofs::Numerals::number_up_to_steps))]
pub(crate) fn number_up_to(radix: u32, most: u32, text: &[u8]) -> Option<u32>
    requires low { 2 ≤ radix }
    requires high { radix ≤ 36 }
    ensures value { result ≡ number_up_to radix most text.now }
    ensures within { IfSome result (λ number. number ≤ most) }
{
    if text.is_empty() {
        return None;
    }
    let mut number = 0u64;
    for byte in text {
        let digit = char::from(*byte).to_digit(radix)?;
        number = number * u64::from(radix) + u64::from(digit);
        if number > u64::from(most) {
            return None;
        }
    }
    Some(number as u32)
}

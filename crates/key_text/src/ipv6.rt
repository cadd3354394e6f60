//! IPv6 addresses.

ghost use Rattle.std.specs.Prelude.{◌≡◌, ◌==◌, ◌&&◌, ◌+◌, ◌≤◌, if◌then◌else◌, length};
ghost use Rattle.std.specs.Prelude.{Some, None, IfSome, IfOk};
ghost use Rattle.line_words.specs.Words.{parts};
ghost use Rattle.key_text.specs.Read.{back_bytes, elision, front_bytes, groups_of, ipv6_of};
ghost use Rattle.key_text.specs.Read.{octets_of, part_bytes, put_behind, with_zeros};
ghost use Rattle.key_text.specs.declared.parts.Part.TheVariants.{Group};
ghost use Rattle.std.specs.Option.{option_or};

use crate::parts::{Part, group, part_list, push_part, push_parts};
use agg_types::{Items, NoMemory};
use line_words::next_part;
use std::alloc::Global;

/// The bytes of an IPv6 address.
const WHOLE: usize = 16;

/// The bytes that an IPv6 address's text says, or none where it is no such address.
#[tactic(auto, unfolding(crate::specs::Read::ipv6_of))]
pub(crate) fn ipv6_bytes(alloc: Global, text: &[u8]) -> Result<Option<Items<u8>>, NoMemory>
    ensures { IfOk result (λ found. found ≡ ipv6_of text.now) }
{
    match elision(text) {
        None => group_list(alloc, text),
        Some(at) => elided(alloc, &text[..at], &text[at + 2..]),
    }
}

// Where the first `::` of a text stands.
fn elision(text: &[u8]) -> Option<usize>
    ensures place { result ≡ elision text.now }
    ensures within { IfSome result (λ at. at + 2 ≤ length text.now) }
{
    for at in 0..text.len().saturating_sub(1) {
        if are_colons(text[at], text[at + 1]) {
            return Some(at);
        }
    }
    None
}

fn are_colons(first: u8, second: u8) -> bool
    ensures { result ≡ (first == 58 && second == 58) }
{
    first == b':' && second == b':'
}

// The bytes of groups, the last of which may be an IPv4 address.
fn group_list(alloc: Global, text: &[u8]) -> Result<Option<Items<u8>>, NoMemory>
    ensures { IfOk result (λ found. found ≡ groups_of (parts 58 text.now)) }
{
    let mut bytes = Vec::new(alloc);
    if !push_groups(text, &mut bytes)? {
        return Ok(None);
    }
    Ok(Some(Items::from_vec(bytes)))
}

// Puts the bytes of groups behind others, the last of which may be an IPv4 address.
#[tactic(auto, using(crate::proofs::Groups::groups_more))]
fn push_groups(text: &[u8], bytes: &mut Vec<u8>) -> Result<bool, NoMemory>
    ensures { IfOk result (λ all. put_behind bytes.old.items (groups_of (parts 58 text.now))
        ≡ (if all then Some bytes.new.items else None)) }
{
    let (front, behind) = next_part(text, b':');
    let Some(rest) = behind else {
        return push_last(front, bytes);
    };
    if !push_part(Part::Group, front, bytes)? {
        return Ok(false);
    }
    push_groups(rest, bytes)
}

// Puts the bytes of a last part behind others: a group, or an IPv4 address in the place of two.
fn push_last(text: &[u8], bytes: &mut Vec<u8>) -> Result<bool, NoMemory>
    ensures { IfOk result (λ all. put_behind bytes.old.items
        (option_or (part_bytes Group text.now) (octets_of text.now))
        ≡ (if all then Some bytes.new.items else None)) }
{
    match group(text) {
        None => push_octets(text, bytes),
        Some(group) => {
            bytes.extend_from_slice(&group.to_be_bytes())?;
            Ok(true)
        }
    }
}

// Puts the bytes of an IPv4 address behind others.
fn push_octets(text: &[u8], bytes: &mut Vec<u8>) -> Result<bool, NoMemory>
    ensures { IfOk result (λ all. put_behind bytes.old.items (octets_of text.now)
        ≡ (if all then Some bytes.new.items else None)) }
{
    let before = bytes.len();
    Ok(push_parts(Part::Octet, text, bytes)? && bytes.len() - before == 4)
}

// The bytes of an address with `::` between two texts.
fn elided(alloc: Global, front: &[u8], back: &[u8]) -> Result<Option<Items<u8>>, NoMemory>
    ensures { IfOk result
        (λ found. found ≡ with_zeros (front_bytes front.now) (back_bytes back.now)) }
{
    let Some(front) = front_bytes(alloc, front)? else {
        return Ok(None);
    };
    let Some(back) = back_bytes(alloc, back)? else {
        return Ok(None);
    };
    with_zeros(alloc, front.as_slice(), back.as_slice())
}

fn front_bytes(alloc: Global, text: &[u8]) -> Result<Option<Items<u8>>, NoMemory>
    ensures { IfOk result (λ found. found ≡ front_bytes text.now) }
{
    match text {
        [] => Ok(Some(Items::from_vec(Vec::new(alloc)))),
        _ => part_list(alloc, Part::Group, text),
    }
}

fn back_bytes(alloc: Global, text: &[u8]) -> Result<Option<Items<u8>>, NoMemory>
    ensures { IfOk result (λ found. found ≡ back_bytes text.now) }
{
    match text {
        [] => Ok(Some(Items::from_vec(Vec::new(alloc)))),
        _ => group_list(alloc, text),
    }
}

// An address's bytes, with zeros in the middle for one or more groups.
fn with_zeros(alloc: Global, front: &[u8], back: &[u8]) -> Result<Option<Items<u8>>, NoMemory>
    ensures { IfOk result (λ found. found ≡ with_zeros (Some front.now) (Some back.now)) }
{
    let given = front.len() + back.len();
    if given > WHOLE - 2 {
        return Ok(None);
    }
    let zeros = vec![in alloc; 0u8; WHOLE - given]?;
    let mut bytes = Vec::new(alloc);
    bytes.extend_from_slice(front)?;
    bytes.extend_from_slice(zeros.as_slice())?;
    bytes.extend_from_slice(back)?;
    Ok(Some(Items::from_vec(bytes)))
}

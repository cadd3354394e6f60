//! Keys from their texts.

ghost use Rattle.std.specs.Prelude.{◌≡◌, ◌≢◌, ◌<◌, [], length, Some, None, IfOk, IfSome};
ghost use Rattle.std.specs.Prelude.{MatchOption};
ghost use Rattle.agg_types.specs.declared.config.KeyKind.TheVariants.{Integer};
ghost use Rattle.std.specs.Result.{result_ok};
ghost use Rattle.hex.specs.Hex.{decode_of};
ghost use Rattle.key_text.specs.Read.{before, bytes_of, hex_byte, integer_of, key_of, string_of};

use crate::ipv6::ipv6_bytes;
use crate::parts::{Part, number_up_to, part_list};
use crate::printing::is_plain;
use agg_types::{Items, Key, KeyKind, NoMemory};
use hex::{FromHex, FromHexError};
use std::alloc::Global;

/// The key that a text is read as, or none where the text is no key of this kind.
///
/// - An integer is one or more digits, up to 2^32 - 1, or `-` and digits up to 2^31; what is above
///   2^31 - 1 is the negative number of the same 32 bits.
/// - An IPv4 address is four numbers of 1 to 3 digits joined by dots.
/// - An IPv6 address is eight groups of 1 to 4 hexadecimal digits joined by colons; an IPv4 address
///   may stand in the place of the last two, and one `::` for one or more groups of zeros
///   (RFC 4291, 2.2).
/// - A string is the bytes 33 to 126 but `%`, and `%` with two hexadecimal digits for any byte, up
///   to the kind's length.
/// - A binary key is the hexadecimal digits of as many bytes as its kind has.
///
/// Hexadecimal digits are read in either case.
pub fn read_key(alloc: Global, kind: KeyKind, text: &[u8]) -> Result<Option<Key>, NoMemory>
    ensures { IfOk result (λ found. found ≡ key_of kind text.now) }
{
    let Some(bytes) = bytes_of(alloc, kind, text)? else {
        return Ok(None);
    };
    if !kind.fits(bytes.as_slice()) {
        return Ok(None);
    }
    Ok(Some(Key::copy(alloc, bytes.as_slice())?))
}

// The bytes that a text says.
fn bytes_of(alloc: Global, kind: KeyKind, text: &[u8]) -> Result<Option<Items<u8>>, NoMemory>
    ensures { IfOk result (λ found. found ≡ bytes_of kind text.now) }
{
    match kind {
        KeyKind::Integer => integer_bytes(alloc, text),
        KeyKind::Ip => part_list(alloc, Part::Octet, text),
        KeyKind::Ipv6 => ipv6_bytes(alloc, text),
        KeyKind::Str(_) => string_bytes(alloc, text),
        KeyKind::Binary(_) => binary_bytes(alloc, text),
    }
}

fn integer_bytes(alloc: Global, text: &[u8]) -> Result<Option<Items<u8>>, NoMemory>
    ensures { IfOk result (λ found. found ≡ bytes_of Integer text.now) }
{
    match integer(text) {
        None => Ok(None),
        Some(number) => Ok(Some(Items::copy(alloc, &number.to_be_bytes())?)),
    }
}

// A number of 32 bits, or a negative one, as its 32 bits.
fn integer(text: &[u8]) -> Option<u32>
    ensures { result ≡ integer_of text.now }
{
    match text {
        [] => None,
        [first, digits @ ..] => {
            if *first == b'-' {
                Some(number_up_to(10, 1 << 31, digits)?.wrapping_neg())
            } else {
                number_up_to(10, u32::MAX, text)
            }
        }
    }
}

fn binary_bytes(alloc: Global, text: &[u8]) -> Result<Option<Items<u8>>, NoMemory>
    ensures { IfOk result (λ found. found ≡ result_ok (decode_of text.now)) }
{
    match hex::decode(alloc, text) {
        Ok(bytes) => Ok(Some(Items::from_vec(bytes))),
        Err(FromHexError::OutOfMemory) => Err(NoMemory),
        Err(_) => Ok(None),
    }
}

#[tactic(auto, using(crate::proofs::Strings::put_behind_push))]
fn string_bytes(alloc: Global, text: &[u8]) -> Result<Option<Items<u8>>, NoMemory>
    ensures { IfOk result (λ found. found ≡ string_of text.now) }
{
    let mut bytes = Vec::new(alloc);
    let mut rest = text;
    while let Some((byte, behind)) = next_byte(rest) {
        bytes.push(byte)?;
        rest = behind;
    }
    if !rest.is_empty() {
        return Ok(None);
    }
    Ok(Some(Items::from_vec(bytes)))
}

// The first byte of a string, and the text behind it; none where the text is empty or says no byte
// there.
fn next_byte(text: &[u8]) -> Option<(u8, &[u8])>
    ensures byte { MatchOption result (text.now ≢ [] → string_of text.now ≡ None)
        (λ found. string_of text.now ≡ before (Some found.0) (string_of found.1.now)) }
    ensures shorter { IfSome result (λ found. length found.1.now < length text.now) }
{
    match text {
        [b'%', high, low, behind @ ..] => Some((hex_byte(*high, *low)?, behind)),
        [byte, behind @ ..] if is_plain(*byte) => Some((*byte, behind)),
        _ => None,
    }
}

// The byte of two hexadecimal digits.
fn hex_byte(high: u8, low: u8) -> Option<u8>
    ensures { result ≡ hex_byte high low }
{
    match <[u8; 1]>::from_hex([high, low]) {
        Ok(bytes) => Some(bytes[0]),
        Err(_) => None,
    }
}

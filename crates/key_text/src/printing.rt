//! Keys and numbers as text, behind the bytes that are there.

ghost use Rattle.std.specs.Prelude.{◌≡◌, ◌++◌, ◌<◌, length, take, map, OnOk};
ghost use Rattle.std.specs.Fmt.{decimal};
ghost use Rattle.std.specs.List.{flat_map, join_with_byte};
ghost use Rattle.key_text.specs.Printed.{escaped, groups, hex_of, integer_text, is_plain, key_text};
ghost use Rattle.key_text.specs.Printed.{signed_text};

use agg_types::{KeyKind, NoMemory};
use itoa::Buffer;

/// Appends the text of a key. After `NoMemory` some of it may stand behind the bytes that were
/// there.
///
/// An integer is a signed number of 32 bits, an IPv4 address four numbers joined by dots, and an
/// IPv6 address groups of four hexadecimal digits joined by colons. A string has the bytes 33 to
/// 126 but `%` as themselves, and any other as `%` and two digits. A binary key is its hexadecimal
/// digits. A key that has not the length of an integer has no text.
pub fn append_key(kind: KeyKind, key: &[u8], out: &mut Vec<u8>) -> Result<(), NoMemory>
    ensures ok { OnOk result (out.new.items ≡ out.old.items ++ key_text kind key.now) }
    ensures begins { take (length out.old.items) out.new.items ≡ out.old.items }
{
    match kind {
        KeyKind::Integer => append_integer(key, out),
        KeyKind::Ip => append_octets(key, out),
        KeyKind::Ipv6 => append_groups(key, out),
        KeyKind::Str(_) => append_string(key, out),
        KeyKind::Binary(_) => append_hex(key, out),
    }
}

/// Appends bytes. After `NoMemory` nothing is appended.
#[inline]
pub fn append_text(text: &[u8], out: &mut Vec<u8>) -> Result<(), NoMemory>
    ensures ok { OnOk result (out.new.items ≡ out.old.items ++ text.now) }
    ensures begins { take (length out.old.items) out.new.items ≡ out.old.items }
{
    Ok(out.extend_from_slice(text)?)
}

/// Appends a number in decimal digits. After `NoMemory` nothing is appended.
#[inline]
pub fn append_number(number: u128, out: &mut Vec<u8>) -> Result<(), NoMemory>
    ensures ok { OnOk result (out.new.items ≡ out.old.items ++ decimal number) }
    ensures begins { take (length out.old.items) out.new.items ≡ out.old.items }
{
    let mut buffer = Buffer::new();
    append_text(buffer.format(number).as_bytes(), out)
}

fn append_integer(key: &[u8], out: &mut Vec<u8>) -> Result<(), NoMemory>
    ensures ok { OnOk result (out.new.items ≡ out.old.items ++ integer_text key.now) }
    ensures begins { take (length out.old.items) out.new.items ≡ out.old.items }
{
    match key {
        [a, b, c, d] => append_signed(u32::from_be_bytes([*a, *b, *c, *d]), out),
        _ => Ok(()),
    }
}

fn append_signed(number: u32, out: &mut Vec<u8>) -> Result<(), NoMemory>
    ensures ok { OnOk result (out.new.items ≡ out.old.items ++ signed_text number) }
    ensures begins { take (length out.old.items) out.new.items ≡ out.old.items }
{
    if number < 1 << 31 {
        return append_number(u128::from(number), out);
    }
    append_text(b"-", out)?;
    append_number((1 << 32) - u128::from(number), out)
}

fn append_octets(key: &[u8], out: &mut Vec<u8>) -> Result<(), NoMemory>
    ensures ok { OnOk result
        (out.new.items ≡ out.old.items ++ join_with_byte 46 (map decimal key.now)) }
    ensures begins { take (length out.old.items) out.new.items ≡ out.old.items }
{
    match key {
        [] => Ok(()),
        [last] => append_number(u128::from(*last), out),
        [first, rest @ ..] => {
            append_number(u128::from(*first), out)?;
            append_text(b".", out)?;
            append_octets(rest, out)
        }
    }
}

#[tactic(auto, using(crate::proofs::Begins::begins_then))]
fn append_groups(key: &[u8], out: &mut Vec<u8>) -> Result<(), NoMemory>
    ensures ok { OnOk result (out.new.items ≡ out.old.items ++ join_with_byte 58 (groups key.now)) }
    ensures begins { take (length out.old.items) out.new.items ≡ out.old.items }
{
    match key {
        [] => Ok(()),
        [last] => append_byte(*last, out),
        [high, low] => append_group(*high, *low, out),
        [high, low, rest @ ..] => {
            append_group(*high, *low, out)?;
            append_text(b":", out)?;
            append_groups(rest, out)
        }
    }
}

#[tactic(auto, unfolding(hex::specs::Hex::encode_with))]
fn append_group(high: u8, low: u8, out: &mut Vec<u8>) -> Result<(), NoMemory>
    ensures ok { OnOk result (out.new.items ≡ out.old.items ++ hex_of high ++ hex_of low) }
    ensures begins { take (length out.old.items) out.new.items ≡ out.old.items }
{
    let mut digits = [0u8; 4];
    match hex::encode_to_slice([high, low], &mut digits) {
        Ok(()) => append_text(&digits, out),
        Err(_) => Err(NoMemory),
    }
}

// The two digits of a byte. The room fits, so that they can always be written there.
#[inline]
#[tactic(auto, unfolding(hex::specs::Hex::encode_with))]
fn append_byte(byte: u8, out: &mut Vec<u8>) -> Result<(), NoMemory>
    ensures ok { OnOk result (out.new.items ≡ out.old.items ++ hex_of byte) }
    ensures begins { take (length out.old.items) out.new.items ≡ out.old.items }
{
    let mut digits = [0u8; 2];
    match hex::encode_to_slice([byte], &mut digits) {
        Ok(()) => append_text(&digits, out),
        Err(_) => Err(NoMemory),
    }
}

fn append_hex(key: &[u8], out: &mut Vec<u8>) -> Result<(), NoMemory>
    ensures ok { OnOk result (out.new.items ≡ out.old.items ++ flat_map hex_of key.now) }
    ensures begins { take (length out.old.items) out.new.items ≡ out.old.items }
{
    for byte in key {
        append_byte(*byte, out)?;
    }
    Ok(())
}

fn append_string(key: &[u8], out: &mut Vec<u8>) -> Result<(), NoMemory>
    ensures ok { OnOk result (out.new.items ≡ out.old.items ++ flat_map escaped key.now) }
    ensures begins { take (length out.old.items) out.new.items ≡ out.old.items }
{
    for byte in key {
        append_escaped(*byte, out)?;
    }
    Ok(())
}

#[inline]
fn append_escaped(byte: u8, out: &mut Vec<u8>) -> Result<(), NoMemory>
    ensures ok { OnOk result (out.new.items ≡ out.old.items ++ escaped byte) }
    ensures begins { take (length out.old.items) out.new.items ≡ out.old.items }
{
    if is_plain(byte) {
        return append_text(&[byte], out);
    }
    append_text(b"%", out)?;
    append_byte(byte, out)
}

/// Whether a byte of a string stands for itself.
pub(crate) fn is_plain(byte: u8) -> bool
    ensures { result ≡ is_plain byte }
{
    33 <= byte && byte <= 126 && byte != b'%'
}

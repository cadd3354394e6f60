//! The protocol's encoded integers.

ghost use Rattle.std.specs.Prelude.{◌≡◌, ◌≤◌, ◌∷◌, ◌++◌, ◌+◌, ◌<◌, ℕ, ◌↔◌, length, take, IfOk};
ghost use Rattle.std.specs.Prelude.{IfSome, IsErr, OnOk, OnErr};
ghost use Rattle.peers_msg.specs.Numeral.{integer_at, IsIntegerAt, IsCut, IsTooLarge};
ghost use Rattle.peers_msg.specs.Spelling.{integer_spelling, tail_spelling};

use agg_types::NoMemory;
use thiserror::Error;

/// The bytes of an encoded integer stand for more than 2^64 - 1.
#[derive(Clone, Copy, Debug, PartialEq, Eq, Error)]
#[error("an encoded integer is above 2^64 - 1")]
pub struct IntTooLarge;

/// Reads the encoded integer at the front of `bytes`: its value, and how many bytes it takes. Bytes
/// may follow it.
///
/// `None` where the bytes end before the integer does. `IntTooLarge` as soon as the bytes that are
/// there stand for more than 2^64 - 1.
#[inline]
pub fn get_int(bytes: &[u8]) -> Result<Option<(u64, usize)>, IntTooLarge>
    ensures found { (n len : ℕ) → (result ≡ Ok (Some (n, len))) ↔ IsIntegerAt bytes.now n len }
    ensures cut { (result ≡ Ok None) ↔ IsCut bytes.now }
    ensures over { IsErr result ↔ IsTooLarge bytes.now }

    // The same as a function of the bytes.
    ensures exact { result ≡ integer_at bytes.now }
    ensures within { IfOk result
        (λ found. IfSome found (λ x. (0 < x.1) × (x.1 ≤ length bytes.now))) }
{
    read_int(bytes)
}

/// The encoded integer at the front.
#[inline]
#[tactic(auto, unfolding(crate::specs::Numeral::integer_at))]
pub(crate) fn read_int(bytes: &[u8]) -> Result<Option<(u64, usize)>, IntTooLarge>
    ensures exact { result ≡ integer_at bytes.now }
    ensures within { IfOk result
        (λ found. IfSome found (λ x. (0 < x.1) × (x.1 ≤ length bytes.now))) }
{
    match bytes {
        [] => Ok(None),
        [first, rest @ ..] => {
            if *first < 240 {
                Ok(Some((u64::from(*first), 1)))
            } else {
                get_more(*first, rest)
            }
        }
    }
}

/// Reads an integer of two bytes or more, of which `first` is the first. Those of two or three, up
/// to 264,431, take no loop.
#[inline]
fn get_more(first: u8, rest: &[u8]) -> Result<Option<(u64, usize)>, IntTooLarge>
    requires { 240 ≤ first }
    ensures exact { result ≡ integer_at (first ∷ rest.now) }
    ensures within { IfOk result
        (λ found. IfSome found (λ x. (0 < x.1) × (x.1 ≤ length rest.now + 1))) }
{
    match rest {
        [second, ..] if *second < 128 => {
            Ok(Some((u64::from(first) + 16 * u64::from(*second), 2)))
        }
        [second, third, ..] if *third < 128 => {
            let low = u64::from(first) + 16 * u64::from(*second);
            Ok(Some((low + 2048 * u64::from(*third), 3)))
        }
        _ => get_long_int(first, rest),
    }
}

/// Reads an integer of two bytes or more, of which `first` is the first.
fn get_long_int(first: u8, rest: &[u8]) -> Result<Option<(u64, usize)>, IntTooLarge>
    requires { 240 ≤ first }
    ensures exact { result ≡ integer_at (first ∷ rest.now) }
    ensures within { IfOk result
        (λ found. IfSome found (λ x. (0 < x.1) × (x.1 ≤ length rest.now + 1))) }
{
    let mut value = u64::from(first);
    let mut weight = 16_u64;
    for (i, byte) in rest.iter().enumerate() {
        let Some(part) = u64::from(*byte).checked_mul(weight) else {
            return Err(IntTooLarge);
        };
        let Some(sum) = value.checked_add(part) else {
            return Err(IntTooLarge);
        };
        if *byte < 128 {
            return Ok(Some((sum, i + 2)));
        }
        value = sum;
        weight *= 128;
    }
    Ok(None)
}

/// Appends the one spelling of `value`. After `NoMemory` the bytes of `out` are as they were.
pub fn put_int(value: u64, out: &mut Vec<u8>) -> Result<(), NoMemory>
    ensures ok { OnOk result (out.new.items ≡ out.old.items ++ integer_spelling value) }
    ensures err { OnErr result (out.new.items ≡ out.old.items) }
{
    let len = out.len();
    if append_int(value, out).is_err() {
        out.truncate(len);
        return Err(NoMemory);
    }
    Ok(())
}

/// Appends the spelling of `value`, or some of its bytes before `NoMemory`.
#[tactic(auto, unfolding(crate::specs::Spelling::integer_spelling))]
pub(crate) fn append_int(value: u64, out: &mut Vec<u8>) -> Result<(), NoMemory>
    ensures ok { OnOk result (out.new.items ≡ out.old.items ++ integer_spelling value) }
    ensures begins { take (length out.old.items) out.new.items ≡ out.old.items }
{
    if value < 240 {
        out.push(value as u8)?;
        return Ok(());
    }
    let rest = value - 240;
    out.push(240 + (rest % 16) as u8)?;
    append_tail(rest / 16, out)
}

/// Appends the bytes of a spelling after the first, or some of them before `NoMemory`.
fn append_tail(value: u64, out: &mut Vec<u8>) -> Result<(), NoMemory>
    ensures ok { OnOk result ((most : ℕ) → value ≤ most
        → out.new.items ≡ out.old.items ++ tail_spelling most value) }
    ensures begins { take (length out.old.items) out.new.items ≡ out.old.items }
{
    let mut value = value;
    while value >= 128 {
        let rest = value - 128;
        out.push(128 + (rest % 128) as u8)?;
        value = rest / 128;
    }
    out.push(value as u8)?;
    Ok(())
}

//! The networks that words of the command line say.

ghost use Rattle.std.specs.Prelude.{◌≡◌, ◌≤◌, ◌||◌, ◌==◌, ◌<◌, ◌^◌, length, IfOk, IfSome};
ghost use Rattle.std.specs.List.{list_any};
ghost use Rattle.std.specs.Option.{option_map};
ghost use Rattle.line_words.specs.Words.{parts};
ghost use Rattle.command_line.specs.Networks.{address_number, bits_in, bits_of, digits_in};
ghost use Rattle.command_line.specs.Networks.{family_of, front_bits};
ghost use Rattle.command_line.specs.Networks.{holds, last_bits, network_of, network_parts};
ghost use Rattle.command_line.specs.Networks.{number_in};
ghost use Rattle.command_line.specs.declared.networks.Family.TheVariants.{V4, V6};

use crate::address::{read_ip, read_ipv6};
use crate::network::Network;
use agg_types::NoMemory;
use line_words::{next_part, number, place_of};
use std::alloc::Global;
use std::net::IpAddr;

/// What stands before an IPv4 in the IPv6 that stands for it: `::ffff:a.b.c.d`.
const MAPPED: u128 = 0xffff << 32;

/// An address as the number that its 128 bits write.
pub(crate) fn address_number(address: IpAddr) -> u128
    ensures { result ≡ address_number address }
{
    match address {
        IpAddr::V4(ip) => MAPPED + u128::from(ip.to_bits()),
        IpAddr::V6(ip) => ip.to_bits(),
    }
}

/// Whether an address may connect where these networks are asked for: one of them holds it, or none
/// is asked for.
pub fn admits(networks: &[Network], address: IpAddr) -> bool
    ensures { result ≡ (length networks.now == 0)
        || list_any (λ network. holds network address) networks.now }
{
    for network in networks {
        if network.holds(address) {
            return true;
        }
    }
    networks.is_empty()
}

// How the address of a network is written.
#[derive(Clone, Copy)]
enum Family {
    V4,
    V6,
}

impl Family {
    // The bits of its addresses.
    fn bits(self) -> u8
        ensures { result ≡ bits_in self }
    {
        match self {
            Family::V4 => 32,
            Family::V6 => 128,
        }
    }

    // The most digits of a number of bits.
    fn digits(self) -> usize
        ensures { result ≡ digits_in self }
    {
        match self {
            Family::V4 => 2,
            Family::V6 => 3,
        }
    }

    // The bits that stand before its addresses.
    fn front_bits(self) -> u8
        ensures { result ≡ front_bits self }
    {
        match self {
            Family::V4 => 96,
            Family::V6 => 0,
        }
    }
}

/// The network that a text says: an IPv4 or an IPv6 as keys are written, and behind a slash the
/// number of its bits that count, up to 32 or 128. Without it all count. None where it says none.
pub fn read_network(alloc: Global, text: &[u8]) -> Result<Option<Network>, NoMemory>
    ensures { IfOk result (λ found. option_map network_parts found ≡ network_of text.now) }
{
    let (ip, behind) = next_part(text, b'/');
    let family = family_of(ip);
    let bits = match behind {
        None => Some(family.bits()),
        Some(behind) => last_bits(family, behind),
    };
    let (Some(number), Some(bits)) = (read_number(alloc, family, ip)?, bits) else {
        return Ok(None);
    };
    let bits = family.front_bits() + bits;
    Ok(Some(Network { number, bits }))
}

// An IPv6 has a colon.
fn family_of(ip: &[u8]) -> Family
    ensures { result ≡ family_of ip.now }
{
    if place_of(ip, b':').is_some() {
        Family::V6
    } else {
        Family::V4
    }
}

// The number of the address that a text says.
fn read_number(alloc: Global, family: Family, ip: &[u8]) -> Result<Option<u128>, NoMemory>
    ensures { IfOk result (λ found. found ≡ number_in family ip.now) }
{
    match family {
        Family::V4 => ipv4_number(alloc, ip),
        Family::V6 => ipv6_number(alloc, ip),
    }
}

#[tactic(auto, using(crate::proofs::NetworkNumbers::ipv4_number))]
fn ipv4_number(alloc: Global, ip: &[u8]) -> Result<Option<u128>, NoMemory>
    ensures { IfOk result (λ found. found ≡ number_in V4 ip.now) }
{
    match read_ip(alloc, ip)? {
        None => Ok(None),
        Some(ip) => Ok(Some(address_number(IpAddr::V4(ip)))),
    }
}

#[tactic(auto, using(crate::proofs::NetworkNumbers::ipv6_number))]
fn ipv6_number(alloc: Global, ip: &[u8]) -> Result<Option<u128>, NoMemory>
    ensures { IfOk result (λ found. found ≡ number_in V6 ip.now) }
{
    match read_ipv6(alloc, ip)? {
        None => Ok(None),
        Some(ip) => Ok(Some(address_number(IpAddr::V6(ip)))),
    }
}

// The number of bits behind the only slash.
#[tactic(auto, using(crate::proofs::NetworkTexts::too_many))]
fn last_bits(family: Family, text: &[u8]) -> Option<u8>
    ensures bits { result ≡ last_bits family (parts 47 text.now) }
    ensures within { IfSome result (λ bits. bits ≤ bits_in family) }
{
    let (bits, more) = next_part(text, b'/');
    if more.is_some() {
        return None;
    }
    read_bits(family, bits)
}

// A number with few digits, up to the bits of an address.
fn read_bits(family: Family, text: &[u8]) -> Option<u8>
    ensures bits { result ≡ bits_of family text.now }
    ensures within { IfSome result (λ bits. bits ≤ bits_in family) }
{
    if text.len() > family.digits() {
        return None;
    }
    let bits = u8::try_from(number(text).ok()?).ok()?;
    if bits > family.bits() {
        return None;
    }
    Some(bits)
}

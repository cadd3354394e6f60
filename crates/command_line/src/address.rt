//! Addresses on the command line.

ghost use Rattle.std.specs.Prelude.{◌≡◌, IfOk};
ghost use Rattle.std.specs.Option.{option_map};
ghost use Rattle.std.specs.Net.Addr.{ipv4_octets, ipv6_octets};
ghost use Rattle.agg_types.specs.declared.config.KeyKind.TheVariants.{Ip, Ipv6};
ghost use Rattle.key_text.specs.Read.{key_of};
ghost use Rattle.line_words.specs.Words.{parts};
ghost use Rattle.command_line.specs.Address.{address_from, address_of, bracketed, parts_of};
ghost use Rattle.command_line.specs.Address.{port_behind, port_of};

use agg_types::{KeyKind, NoMemory};
use key_text::read_key;
use line_words::{next_part, number};
use std::alloc::Global;
use std::net::{Ipv4Addr, Ipv6Addr, SocketAddr, SocketAddrV4, SocketAddrV6};

/// The most digits of a port.
const PORT_DIGITS: usize = 5;

/// The address that a text says: an IPv4 as keys are written, or an IPv6 as they are in brackets,
/// then a colon, and a port of 1 to 5 digits up to 65,535. None where it says none.
pub fn read_address(alloc: Global, text: &[u8]) -> Result<Option<SocketAddr>, NoMemory>
    ensures { IfOk result (λ found. option_map parts_of found ≡ address_of text.now) }
{
    match text {
        [] => Ok(None),
        [b'[', rest @ ..] => read_bracketed(alloc, rest),
        _ => read_plain(alloc, text),
    }
}

// An IPv4, a colon and a port.
#[tactic(auto, using(crate::proofs::Addresses::too_many))]
fn read_plain(alloc: Global, text: &[u8]) -> Result<Option<SocketAddr>, NoMemory>
    ensures { IfOk result (λ found. option_map parts_of found ≡ address_from (parts 58 text.now)) }
{
    let (ip, behind) = next_part(text, b':');
    let Some(behind) = behind else {
        return Ok(None);
    };
    let (port, more) = next_part(behind, b':');
    if more.is_some() {
        return Ok(None);
    }
    let (Some(ip), Some(port)) = (read_ip(alloc, ip)?, read_port(port)) else {
        return Ok(None);
    };
    Ok(Some(SocketAddr::V4(SocketAddrV4::new(ip, port))))
}

// What stands behind `[`: an IPv6, `]`, a colon and a port.
#[tactic(auto, using(crate::proofs::Addresses::too_many_brackets))]
fn read_bracketed(alloc: Global, text: &[u8]) -> Result<Option<SocketAddr>, NoMemory>
    ensures { IfOk result (λ found. option_map parts_of found ≡ bracketed (parts 93 text.now)) }
{
    let (ip, behind) = next_part(text, b']');
    let Some(behind) = behind else {
        return Ok(None);
    };
    let (port, more) = next_part(behind, b']');
    if more.is_some() {
        return Ok(None);
    }
    let (Some(ip), Some(port)) = (read_ipv6(alloc, ip)?, port_behind(port)) else {
        return Ok(None);
    };
    Ok(Some(SocketAddr::V6(SocketAddrV6::new(ip, port, 0, 0))))
}

fn port_behind(text: &[u8]) -> Option<u16>
    ensures { result ≡ port_behind text.now }
{
    match text {
        [b':', port @ ..] => read_port(port),
        _ => None,
    }
}

/// The IPv6 that a text says.
pub(crate) fn read_ipv6(alloc: Global, text: &[u8]) -> Result<Option<Ipv6Addr>, NoMemory>
    ensures { IfOk result (λ found. option_map ipv6_octets found ≡ key_of Ipv6 text.now) }
{
    let Some(key) = read_key(alloc, KeyKind::Ipv6, text)? else {
        return Ok(None);
    };
    match key.as_slice() {
        [a, b, c, d, e, f, g, h, i, j, k, l, m, n, o, p] => Ok(Some(ipv6_of([
            *a, *b, *c, *d, *e, *f, *g, *h, *i, *j, *k, *l, *m, *n, *o, *p,
        ]))),
        _ => unreachable!(),
    }
}

// The IPv6 of these bytes.
fn ipv6_of(bytes: [u8; 16]) -> Ipv6Addr
    ensures { ipv6_octets result ≡ bytes }
{
    Ipv6Addr::from_octets(bytes)
}

/// The IPv4 that a text says.
pub(crate) fn read_ip(alloc: Global, text: &[u8]) -> Result<Option<Ipv4Addr>, NoMemory>
    ensures { IfOk result (λ found. option_map ipv4_octets found ≡ key_of Ip text.now) }
{
    let Some(key) = read_key(alloc, KeyKind::Ip, text)? else {
        return Ok(None);
    };
    match key.as_slice() {
        [a, b, c, d] => Ok(Some(Ipv4Addr::new(*a, *b, *c, *d))),
        _ => unreachable!(),
    }
}

// A number of 1 to 5 digits, up to 65,535.
fn read_port(text: &[u8]) -> Option<u16>
    ensures { result ≡ port_of text.now }
{
    if text.len() > PORT_DIGITS {
        return None;
    }
    u16::try_from(number(text).ok()?).ok()
}

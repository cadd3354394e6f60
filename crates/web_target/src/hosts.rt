//! For which hosts a request may be.

ghost use Rattle.std.specs.Prelude.{◌≡◌, ◌||◌, is_some, map, string_bytes, IfOk};
ghost use Rattle.std.specs.List.{list_all, list_any};
ghost use Rattle.agg_types.specs.declared.config.KeyKind.TheVariants.{Ip, Ipv6};
ghost use Rattle.key_text.specs.Read.{key_of};
ghost use Rattle.line_words.specs.Numbers.{is_decimal};
ghost use Rattle.line_words.specs.Words.{parts};
ghost use Rattle.web_target.specs.Hosts.{is_admitted, is_bracketed, is_host, is_name, is_plain};
ghost use Rattle.web_target.specs.Hosts.{is_port_behind, is_same_name};

use agg_types::{KeyKind, NoMemory};
use key_text::read_key;
use line_words::next_part;
use std::alloc::Global;

/// Whether a request may be for this host, where a collector has these names: the host is an
/// address, `localhost` or one of the names without regard to case. A port may stand behind each.
pub fn admits_host(alloc: Global, names: &[String], host: &[u8]) -> Result<bool, NoMemory>
    ensures { IfOk result (λ admits. admits ≡ is_admitted (map string_bytes names.now) host.now) }
{
    match host {
        [] => Ok(false),
        [b'[', rest @ ..] => is_bracketed(alloc, rest),
        _ => is_plain(alloc, names, host),
    }
}

// What stands behind `[`: an IPv6, `]`, and maybe a colon and a port.
#[tactic(auto, using(crate::proofs::HostParts::too_many_brackets))]
fn is_bracketed(alloc: Global, text: &[u8]) -> Result<bool, NoMemory>
    ensures { IfOk result (λ admits. admits ≡ is_bracketed (parts 93 text.now)) }
{
    let (ip, behind) = next_part(text, b']');
    let Some(behind) = behind else {
        return Ok(false);
    };
    let (port, more) = next_part(behind, b']');
    if more.is_some() {
        return Ok(false);
    }
    if !is_port_behind(port) {
        return Ok(false);
    }
    is_ipv6(alloc, ip)
}

fn is_port_behind(text: &[u8]) -> bool
    ensures { result ≡ is_port_behind text.now }
{
    match text {
        [] => true,
        [b':', port @ ..] => are_digits(port),
        _ => false,
    }
}

fn are_digits(text: &[u8]) -> bool
    ensures { result ≡ list_all is_decimal text.now }
{
    text.iter().all(|byte| byte.is_ascii_digit())
}

// An IPv4 or a name, and maybe a colon and a port.
#[tactic(auto, using(crate::proofs::HostParts::too_many))]
fn is_plain(alloc: Global, names: &[String], text: &[u8]) -> Result<bool, NoMemory>
    ensures { IfOk result (λ admits.
        admits ≡ is_plain (map string_bytes names.now) (parts 58 text.now)) }
{
    let (host, behind) = next_part(text, b':');
    let Some(behind) = behind else {
        return is_host(alloc, names, host);
    };
    let (port, more) = next_part(behind, b':');
    if more.is_some() {
        return Ok(false);
    }
    if !are_digits(port) {
        return Ok(false);
    }
    is_host(alloc, names, host)
}

fn is_host(alloc: Global, names: &[String], host: &[u8]) -> Result<bool, NoMemory>
    ensures { IfOk result (λ admits. admits ≡ is_host (map string_bytes names.now) host.now) }
{
    if is_name(names, host) {
        return Ok(true);
    }
    is_ip(alloc, host)
}

fn is_ip(alloc: Global, text: &[u8]) -> Result<bool, NoMemory>
    ensures { IfOk result (λ found. found ≡ is_some (key_of Ip text.now)) }
{
    Ok(read_key(alloc, KeyKind::Ip, text)?.is_some())
}

fn is_ipv6(alloc: Global, text: &[u8]) -> Result<bool, NoMemory>
    ensures { IfOk result (λ found. found ≡ is_some (key_of Ipv6 text.now)) }
{
    Ok(read_key(alloc, KeyKind::Ipv6, text)?.is_some())
}

// `localhost`, or one of the names.
fn is_name(names: &[String], name: &[u8]) -> bool
    ensures { result ≡ is_name (map string_bytes names.now) name.now }
{
    is_same_name(name, b"localhost") || is_one_of(names, name)
}

fn is_one_of(names: &[String], name: &[u8]) -> bool
    ensures { result ≡ list_any (is_same_name name.now) (map string_bytes names.now) }
{
    for other in names {
        if is_same_name(name, other.as_bytes()) {
            return true;
        }
    }
    false
}

// Whether two names are one without regard to case.
fn is_same_name(name: &[u8], other: &[u8]) -> bool
    ensures { result ≡ is_same_name name.now other.now }
{
    name.eq_ignore_ascii_case(other)
}

//! The names of hosts on the command line.

ghost use Rattle.std.specs.Prelude.{◌≡◌, map, string_bytes, IfOk};
ghost use Rattle.std.specs.List.{list_all};
ghost use Rattle.std.specs.Option.{option_map};
ghost use Rattle.command_line.specs.Hosts.{hosts_of, is_host_byte, is_host_name};

use agg_types::NoMemory;
use std::alloc::Global;

fn is_host_byte(byte: u8) -> bool
    ensures { result ≡ is_host_byte byte }
{
    byte.is_ascii_alphanumeric() || byte == b'-' || byte == b'.' || byte == b'_'
}

fn are_host_bytes(text: &[u8]) -> bool
    ensures { result ≡ list_all is_host_byte text.now }
{
    text.iter().all(|byte| is_host_byte(*byte))
}

// One or more letters, digits, `-`, `.` and `_`.
fn is_host_name(text: &[u8]) -> bool
    ensures { result ≡ is_host_name text.now }
{
    !text.is_empty() && are_host_bytes(text)
}

// Whether each text is a host's name.
fn are_host_names(texts: &[&str]) -> bool
    ensures { result ≡ list_all is_host_name (map (λ text. text.now) texts.now) }
{
    for text in texts {
        if !is_host_name(text.as_bytes()) {
            return false;
        }
    }
    true
}

fn copied(alloc: Global, texts: &[&str]) -> Result<Vec<String>, NoMemory>
    ensures { IfOk result (λ hosts.
        map string_bytes hosts.items ≡ map (λ text. text.now) texts.now) }
{
    let mut hosts = Vec::new(alloc);
    for text in texts {
        hosts.push(String::from_str(alloc, text)?)?;
    }
    Ok(hosts)
}

/// The names of hosts that texts say, if each says one.
pub(crate) fn read_hosts(alloc: Global, texts: &[&str]) -> Result<Option<Vec<String>>, NoMemory>
    ensures { IfOk result (λ found. option_map (λ hosts. map string_bytes hosts.items) found
        ≡ hosts_of (map (λ text. text.now) texts.now)) }
{
    if !are_host_names(texts) {
        return Ok(None);
    }
    Ok(Some(copied(alloc, texts)?))
}

//! The words of a command line, read.

ghost use Rattle.std.specs.Prelude.{◌≡◌, Some, codes, false, map, string_bytes, IfErr, IfOk};
ghost use Rattle.std.specs.Option.{option_map};
ghost use Rattle.clap.specs.Words.{app_of, first_of, found_of, kind_of, rows_of, rule_of};
ghost use Rattle.command_line.specs.Address.{parts_of};
ghost use Rattle.command_line.specs.Asked.{AsksFor, IsCommand, IsJob, IsNoJob, IsRefused};
ghost use Rattle.command_line.specs.Asked.{IsLocal, SaysAddresses, SaysFile, address_if};
ghost use Rattle.command_line.specs.Asked.{SaysFiles, SaysName, check, import, many_words, word};
ghost use Rattle.command_line.specs.Asked.{address_in, address_said, choice_in, choice_of};
ghost use Rattle.command_line.specs.Asked.{hosts_in, listen, many_option, needed_option};
ghost use Rattle.command_line.specs.Asked.{networks_in, path_if, path_said, program, value_option};
ghost use Rattle.command_line.specs.Networks.{network_parts, networks_of};

use crate::address::read_address;
use crate::hosts::read_hosts;
use crate::job::{Endpoints, Job, UnknownPeers};
use crate::network::Network;
use crate::networks::read_network;
use crate::usage::{PlaceOption, Usage};
use agg_types::NoMemory;
use clap::error::ErrorKind;
use clap::{Arg, ArgAction, ArgMatches, Command, Error};
use std::alloc::{AllocError, Global};
use std::convert::AsStr;
use std::net::SocketAddr;

/// The version of the program, as CHANGELOG.md has it.
pub const VERSION: &str = "0.4.0";

/// What help says of the options.
const CONFIG: &str = "The configuration [default: standard input]";

const HAPROXY: &str = "haproxy.cfg files, read one behind the other [default: standard input]";

const NAME: &str = "The collector's name; each other peer is a proxy [default: the last peer's]";

const PEERS: &str = "Where proxies connect, as 10.1.0.9:10000 or [2001:db8::9]:10000";

const ADMIN: &str = "Where operators connect, as 127.0.0.1:9999; this or --admin-socket";

const ADMIN_SOCKET: &str = "The socket of operators of this machine, as /run/sesamejoist/admin";

const HTTP: &str = "Where browsers and Prometheus connect, as 127.0.0.1:9998 [default: nowhere]";

const FROM: &str = "Proxies' networks, as 10.1.0.0/24 or 2001:db8::/32; any number [default: all]";

const HTTP_HOST: &str =
    "Names under which browsers reach it, beside addresses and localhost; any number";

const UNKNOWN_PEERS: &str =
    "Peers that aren't configured: refuse, or wait until they are [default: refuse]";

/// The job that the words of a command line ask for, the first of them the program's name. Help
/// that is asked for and words that aren't the program's are `Usage::Words`. Of words that are, an
/// address that is none is `Usage::BadAddress`. No place where operators connect is
/// `Usage::NoAdmin`, another word for unknown peers `Usage::BadUnknownPeers`, and a host that has
/// no name `Usage::BadHost`. Of several the first of these is told. A file for `check` in both ways
/// is `Usage::TwoFiles`.
pub fn read<'a, S: AsStr>(alloc: Global, words: &'a [S]) -> Result<Job<'a>, Usage>
    ensures job { IfOk result (AsksFor (map S.text words.now)) }
    ensures usage { IfErr result (IsRefused (map S.text words.now)) }
{
    let matches = program(alloc)?.try_get_matches_from(words)?;
    let Some((name, given)) = matches.subcommand() else {
        unreachable!()
    };
    job(alloc, name, given)
}

// The program, with its commands.
fn program<'a>(alloc: Global) -> Result<Command<'a>, Error>
    ensures ok { IfOk result (λ command. app_of command ≡ program) }
    ensures err { IfErr result (λ error. kind_of error ≡ ErrorKind.OutOfMemory) }
{
    let replay = Command::new(alloc, "replay").about(
        "Reads a script on standard input and prints its results",
    );
    let command = Command::new(alloc, "aggregator")
        .about("Collects HAProxy stick tables of a fleet")
        .version(VERSION)
        .subcommand_required(true)
        .subcommand(replay)?
        .subcommand(import(alloc)?)?
        .subcommand(check(alloc)?)?
        .subcommand(listen(alloc)?)?;
    Ok(command)
}

// The command that prints a configuration for a haproxy.cfg.
fn import<'a>(alloc: Global) -> Result<Command<'a>, AllocError>
    ensures app { IfOk result (λ command. app_of command ≡ import) }
    ensures local { IfOk result IsLocal }
{
    Command::new(alloc, "import")
        .about("Reads a haproxy.cfg and prints a configuration for it")
        .arg(option(alloc, "name", "NAME", NAME))?
        .arg(files(alloc, "file", "FILE", HAPROXY))
}

// The command that says what is wrong with a configuration.
fn check<'a>(alloc: Global) -> Result<Command<'a>, AllocError>
    ensures app { IfOk result (λ command. app_of command ≡ check) }
    ensures local { IfOk result IsLocal }
{
    Command::new(alloc, "check")
        .about("Reads a configuration and says what is wrong with it")
        .arg(option(alloc, "config", "FILE", CONFIG))?
        .arg(file(alloc, "file", "FILE", CONFIG))
}

// The command that collects.
fn listen<'a>(alloc: Global) -> Result<Command<'a>, AllocError>
    ensures app { IfOk result (λ command. app_of command ≡ listen) }
    ensures local { IfOk result IsLocal }
{
    Command::new(alloc, "listen")
        .about("Reads a configuration and collects what proxies send")
        .arg(option(alloc, "config", "FILE", CONFIG))?
        .arg(needed(alloc, "peers", "ADDRESS", PEERS))?
        .arg(option(alloc, "admin", "ADDRESS", ADMIN))?
        .arg(option(alloc, "admin-socket", "PATH", ADMIN_SOCKET))?
        .arg(option(alloc, "http", "ADDRESS", HTTP))?
        .arg(repeated(alloc, "from", "NETWORK", FROM))?
        .arg(option(alloc, "unknown-peers", "WHAT", UNKNOWN_PEERS))?
        .arg(repeated(alloc, "http-host", "NAME", HTTP_HOST))
}

// An option that may be there, with its value.
fn option<'a>(alloc: Global, name: &'a str, value: &'a str, help: &'a str) -> Arg<'a>
    ensures rule { rule_of result ≡ value_option name.entry.now }
    ensures local { result.global ≡ false }
{
    Arg::new(alloc, name)
        .long(name)
        .value_name(value)
        .help(help)
        .action(ArgAction::Set)
}

// An option that has to be there, with its value.
fn needed<'a>(alloc: Global, name: &'a str, value: &'a str, help: &'a str) -> Arg<'a>
    ensures rule { rule_of result ≡ needed_option name.entry.now }
    ensures local { result.global ≡ false }
{
    option(alloc, name, value, help).required(true)
}

// An option that may be there any number of times, each with its value.
fn repeated<'a>(alloc: Global, name: &'a str, value: &'a str, help: &'a str) -> Arg<'a>
    ensures rule { rule_of result ≡ many_option name.entry.now }
    ensures local { result.global ≡ false }
{
    option(alloc, name, value, help).action(ArgAction::Append)
}

// A word that may be there.
fn file<'a>(alloc: Global, name: &'a str, value: &'a str, help: &'a str) -> Arg<'a>
    ensures rule { rule_of result ≡ word name.entry.now }
    ensures local { result.global ≡ false }
{
    Arg::new(alloc, name)
        .value_name(value)
        .help(help)
        .action(ArgAction::Set)
}

// Words, any number of them.
fn files<'a>(alloc: Global, name: &'a str, value: &'a str, help: &'a str) -> Arg<'a>
    ensures rule { rule_of result ≡ many_words name.entry.now }
    ensures local { result.global ≡ false }
{
    file(alloc, name, value, help).action(ArgAction::Append)
}

// What a command with its options asks for.
fn job<'a>(alloc: Global, name: &str, given: &ArgMatches<'a>) -> Result<Job<'a>, Usage>
    requires { IsCommand name.now }
    ensures job { IfOk result (IsJob (Some (name.now, rows_of (found_of given.now)))) }
    ensures none { IfErr result (IsNoJob (Some (name.now, rows_of (found_of given.now)))) }
{
    if name == "replay" {
        Ok(Job::Replay)
    } else if name == "import" {
        importing(alloc, given)
    } else if name == "check" {
        checking(given)
    } else {
        listening(alloc, given)
    }
}

// What `import` asks for.
fn importing<'a>(alloc: Global, given: &ArgMatches<'a>) -> Result<Job<'a>, Usage>
    ensures job { IfOk result (IsJob (Some (codes "import", rows_of (found_of given.now)))) }
    ensures none { IfErr result (IsNoJob (Some (codes "import", rows_of (found_of given.now)))) }
{
    let name = name_in(given);
    let files = files_in(alloc, given)?;
    Ok(Job::Import { name, files })
}

// What `check` asks for.
fn checking<'a>(given: &ArgMatches<'a>) -> Result<Job<'a>, Usage>
    ensures job { IfOk result (IsJob (Some (codes "check", rows_of (found_of given.now)))) }
    ensures none { IfErr result (IsNoJob (Some (codes "check", rows_of (found_of given.now)))) }
{
    match (word_in(given), file_in(given)) {
        (None, config) => Ok(Job::Check { config }),
        (word, None) => Ok(Job::Check { config: word }),
        (Some(_), Some(_)) => Err(Usage::TwoFiles),
    }
}

// What `listen` asks for.
fn listening<'a>(alloc: Global, given: &ArgMatches<'a>) -> Result<Job<'a>, Usage>
    ensures job { IfOk result (IsJob (Some (codes "listen", rows_of (found_of given.now)))) }
    ensures none { IfErr result (IsNoJob (Some (codes "listen", rows_of (found_of given.now)))) }
{
    let config = file_in(given);
    let endpoints = endpoints_in(alloc, given)?;
    Ok(Job::Listen { config, endpoints })
}

// Where the options say to listen, and for whom.
fn endpoints_in(alloc: Global, given: &ArgMatches<'_>) -> Result<Endpoints, Usage>
    ensures said { IfOk result (SaysAddresses (rows_of (found_of given.now))) }
    ensures none { IfErr result (IsNoJob (Some (codes "listen", rows_of (found_of given.now)))) }
{
    let Some(peers) = address_in(alloc, given, "peers")? else {
        return Err(Usage::BadAddress(PlaceOption::Peers));
    };
    let Some(admin) = address_if(alloc, given, "admin")? else {
        return Err(Usage::BadAddress(PlaceOption::Admin));
    };
    let Some(admin_socket) = path_if(alloc, given, "admin-socket")? else {
        return Err(Usage::BadAddress(PlaceOption::AdminSocket));
    };
    let Some(http) = address_if(alloc, given, "http")? else {
        return Err(Usage::BadAddress(PlaceOption::Http));
    };
    let Some(from) = networks_in(alloc, given, "from")? else {
        return Err(Usage::BadAddress(PlaceOption::From));
    };
    let hosts = hosts_in(alloc, given, "http-host")?;
    if admin.is_none() && admin_socket.is_none() {
        return Err(Usage::NoAdmin);
    }
    let Some(unknown_peers) = choice_in(given) else {
        return Err(Usage::BadUnknownPeers);
    };
    let Some(http_hosts) = hosts else {
        return Err(Usage::BadHost);
    };
    Ok(Endpoints {
        peers,
        from,
        unknown_peers,
        admin,
        admin_socket,
        http,
        http_hosts,
    })
}

// The file of a configuration that the options name.
fn file_in<'a>(given: &ArgMatches<'a>) -> Option<&'a str>
    ensures { SaysFile (rows_of (found_of given.now)) result }
{
    given.get_str("config")
}

// The file that a word names.
fn word_in<'a>(given: &ArgMatches<'a>) -> Option<&'a str>
    ensures { option_map (λ name. name.now) result
        ≡ first_of (codes "file") (rows_of (found_of given.now)) }
{
    given.get_str("file")
}

// The collector's name, where an option gives it.
fn name_in<'a>(given: &ArgMatches<'a>) -> Option<&'a str>
    ensures { SaysName (rows_of (found_of given.now)) result }
{
    given.get_str("name")
}

// The files that words name.
fn files_in<'a>(alloc: Global, given: &ArgMatches<'a>) -> Result<Vec<&'a str>, NoMemory>
    ensures { IfOk result (λ files. SaysFiles (rows_of (found_of given.now)) files.items) }
{
    match given.get_raw("file") {
        None => Ok(Vec::new(alloc)),
        Some(files) => copied(alloc, files),
    }
}

fn copied<'a>(alloc: Global, texts: &[&'a str]) -> Result<Vec<&'a str>, NoMemory>
    ensures { IfOk result (λ copied.
        map (λ text. text.now) copied.items ≡ map (λ text. text.now) texts.now) }
{
    let mut copied = Vec::new(alloc);
    copied.extend_from_slice(texts)?;
    Ok(copied)
}

// What the options say of unknown peers.
fn choice_in(given: &ArgMatches<'_>) -> Option<UnknownPeers>
    ensures { result ≡ choice_in (rows_of (found_of given.now)) }
{
    match given.get_str("unknown-peers") {
        None => Some(UnknownPeers::Refuse),
        Some(text) => choice_of(text),
    }
}

fn choice_of(text: &str) -> Option<UnknownPeers>
    ensures { result ≡ choice_of text.now }
{
    if text == "refuse" {
        Some(UnknownPeers::Refuse)
    } else if text == "wait" {
        Some(UnknownPeers::Wait)
    } else {
        None
    }
}

// The address that an option says.
fn address_in(
    alloc: Global,
    given: &ArgMatches<'_>,
    name: &str,
) -> Result<Option<SocketAddr>, NoMemory>
    ensures { IfOk result (λ found.
        option_map parts_of found ≡ address_in name.now (rows_of (found_of given.now))) }
{
    match given.get_str(name) {
        None => Ok(None),
        Some(text) => read_address(alloc, text.as_bytes()),
    }
}

// The address that an option says, if it is there.
fn address_if(
    alloc: Global,
    given: &ArgMatches<'_>,
    name: &str,
) -> Result<Option<Option<SocketAddr>>, NoMemory>
    ensures { IfOk result (λ found. option_map (option_map parts_of) found
        ≡ address_if name.now (rows_of (found_of given.now))) }
{
    match given.get_str(name) {
        None => Ok(Some(None)),
        Some(text) => address_said(alloc, text.as_bytes()),
    }
}

fn address_said(alloc: Global, text: &[u8]) -> Result<Option<Option<SocketAddr>>, NoMemory>
    ensures { IfOk result (λ found. option_map (option_map parts_of) found
        ≡ address_said text.now) }
{
    match read_address(alloc, text)? {
        None => Ok(None),
        Some(address) => Ok(Some(Some(address))),
    }
}

// The path that an option says, if it is there.
fn path_if(
    alloc: Global,
    given: &ArgMatches<'_>,
    name: &str,
) -> Result<Option<Option<String>>, NoMemory>
    ensures { IfOk result (λ found. option_map (option_map string_bytes) found
        ≡ path_if name.now (rows_of (found_of given.now))) }
{
    match given.get_str(name) {
        None => Ok(Some(None)),
        Some(text) => path_said(alloc, text),
    }
}

fn path_said(alloc: Global, text: &str) -> Result<Option<Option<String>>, NoMemory>
    ensures { IfOk result (λ found. option_map (option_map string_bytes) found
        ≡ path_said text.now) }
{
    if text.is_empty() {
        return Ok(None);
    }
    Ok(Some(Some(String::from_str(alloc, text)?)))
}

// The networks that an option says.
fn networks_in(
    alloc: Global,
    given: &ArgMatches<'_>,
    name: &str,
) -> Result<Option<Vec<Network>>, NoMemory>
    ensures { IfOk result (λ found. option_map (λ v. map network_parts v.items) found
        ≡ networks_in name.now (rows_of (found_of given.now))) }
{
    match given.get_raw(name) {
        None => Ok(Some(Vec::new(alloc))),
        Some(texts) => read_networks(alloc, texts),
    }
}

// The names of hosts that an option says.
fn hosts_in(
    alloc: Global,
    given: &ArgMatches<'_>,
    name: &str,
) -> Result<Option<Vec<String>>, NoMemory>
    ensures { IfOk result (λ found. option_map (λ hosts. map string_bytes hosts.items) found
        ≡ hosts_in name.now (rows_of (found_of given.now))) }
{
    match given.get_raw(name) {
        None => Ok(Some(Vec::new(alloc))),
        Some(texts) => read_hosts(alloc, texts),
    }
}

// The networks that texts say, if each says one.
fn read_networks(alloc: Global, texts: &[&str]) -> Result<Option<Vec<Network>>, NoMemory>
    ensures { IfOk result (λ found. option_map (λ v. map network_parts v.items) found
        ≡ networks_of (map (λ text. text.now) texts.now)) }
{
    let mut networks = Vec::new(alloc);
    for text in texts {
        match read_network(alloc, text.as_bytes())? {
            None => return Ok(None),
            Some(network) => networks.push(network)?,
        }
    }
    Ok(Some(networks))
}

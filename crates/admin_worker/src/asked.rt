//! Lines that ask for what the collector itself has to tell, and those that end a connection.

ghost use Rattle.std.specs.Prelude.{◌≡◌};
ghost use Rattle.line_words.specs.Words.{words};
ghost use Rattle.admin_worker.specs.Manners.{asks_prompt, is_prompt};
ghost use Rattle.admin_worker.specs.Status.{alone, asked_by, asked_in, is_blank, is_quit};
ghost use Rattle.admin_worker.specs.Status.{peer_named, peers_asked, quits, says_quit, shown};

use agg_types::Config;
use agg_types::limits::LONGEST_COMMAND_LINE;
use line_words::next_word;
use show_clear::without_returns;
use worker_frame::Status;

/// What a line asks for that is no command on the book.
#[derive(Clone, Copy, Debug, PartialEq, Eq)]
pub enum Asked {
    /// What a gate tells.
    Status(Status),
    /// The whole configuration, with the filters that were added.
    Config,
    /// The standing filters, as the configuration has them.
    Filters,
    /// The ranked lists, as the configuration has them.
    Ranks,
    /// A peer that isn't configured.
    NoPeer,
    /// A prompt behind each answer, or none any more.
    Prompt,
}

/// What a line asks for, if it is none of the commands on the book. It comes without its LF; CRs at
/// its end don't count.
#[tactic(auto, unfolding(crate::specs::Status::asked_in))]
pub(crate) fn asked_in(config: &Config, line: &[u8]) -> Option<Asked>
    ensures { result ≡ asked_in config.now line.now }
{
    let text = without_returns(line);
    if text.len() > LONGEST_COMMAND_LINE {
        return None;
    }
    asked_by(config, text)
}

/// Whether a line asks that its connection ends.
#[tactic(auto, unfolding(crate::specs::Status::quits))]
pub(crate) fn quits(line: &[u8]) -> bool
    ensures { result ≡ quits line.now }
{
    let text = without_returns(line);
    if text.len() > LONGEST_COMMAND_LINE {
        return false;
    }
    is_quit(text)
}

fn is_quit(line: &[u8]) -> bool
    ensures { result ≡ is_quit (words line.now) }
{
    match next_word(line) {
        None => false,
        Some((word, rest)) => says_quit(word) && next_word(rest).is_none(),
    }
}

/// Whether a line asks for a prompt, or for none any more.
#[tactic(auto, unfolding(crate::specs::Manners::asks_prompt))]
pub(crate) fn asks_prompt(line: &[u8]) -> bool
    ensures { result ≡ asks_prompt line.now }
{
    let text = without_returns(line);
    if text.len() > LONGEST_COMMAND_LINE {
        return false;
    }
    is_prompt(text)
}

fn is_prompt(line: &[u8]) -> bool
    ensures { result ≡ is_prompt (words line.now) }
{
    match next_word(line) {
        None => false,
        Some((word, rest)) => word == b"prompt".as_slice() && next_word(rest).is_none(),
    }
}

// Whether a word ends a connection.
fn says_quit(word: &[u8]) -> bool
    ensures { result ≡ says_quit word.now }
{
    match word {
        b"quit" | b"exit" => true,
        _ => false,
    }
}

/// Whether a line has no word.
#[tactic(auto, unfolding(crate::specs::Status::is_blank))]
pub(crate) fn is_blank(line: &[u8]) -> bool
    ensures { result ≡ is_blank line.now }
{
    let text = without_returns(line);
    if text.len() > LONGEST_COMMAND_LINE {
        return false;
    }
    next_word(text).is_none()
}

fn asked_by(config: &Config, line: &[u8]) -> Option<Asked>
    ensures { result ≡ asked_by config.now (words line.now) }
{
    let (word, rest) = next_word(line)?;
    match word {
        b"help" => alone(Asked::Status(Status::Help), rest),
        b"prompt" => alone(Asked::Prompt, rest),
        b"show" => shown(config, rest),
        _ => None,
    }
}

// Behind `show`.
fn shown(config: &Config, line: &[u8]) -> Option<Asked>
    ensures { result ≡ shown config.now (words line.now) }
{
    let (word, rest) = next_word(line)?;
    match word {
        b"info" => alone(Asked::Status(Status::Info), rest),
        b"peers" => peers_asked(config, rest),
        b"config" => alone(Asked::Config, rest),
        b"filters" => alone(Asked::Filters, rest),
        b"filter" => alone(Asked::Filters, rest),
        b"ranks" => alone(Asked::Ranks, rest),
        b"rank" => alone(Asked::Ranks, rest),
        _ => None,
    }
}

// Behind `show peers`.
fn peers_asked(config: &Config, line: &[u8]) -> Option<Asked>
    ensures { result ≡ peers_asked config.now (words line.now) }
{
    match next_word(line) {
        None => Some(Asked::Status(Status::Peers)),
        Some((name, rest)) => alone(peer_named(config, name), rest),
    }
}

fn peer_named(config: &Config, name: &[u8]) -> Asked
    ensures { result ≡ peer_named config.now name.now }
{
    match config.peers.position(name) {
        None => Asked::NoPeer,
        Some(peer) => Asked::Status(Status::Tables(peer)),
    }
}

// This, where no further word follows.
fn alone(asked: Asked, line: &[u8]) -> Option<Asked>
    ensures { result ≡ alone asked (words line.now) }
{
    match next_word(line) {
        None => Some(asked),
        Some(_) => None,
    }
}

//! The sections of a haproxy.cfg.

ghost use Rattle.std.specs.Prelude.{◌≡◌};
ghost use Rattle.haproxy_cfg.specs.Sections.{before_hash, is_other, is_proxy, opened};

use crate::values::has_word;
use line_words::place_of;

/// The words that open a section that may have a stick table.
const PROXIES: &[u8] = b"backend frontend listen";

/// The words that open a section in which no peer or stick table is declared.
const OTHERS: &[u8] = b"acme cache crt-store defaults fcgi-app global http-errors log-forward \
    log-profile mailers program resolvers ring traces userlist";

/// What may be declared in a section.
#[derive(Clone, Copy, PartialEq, Eq)]
pub enum SectionKind {
    /// Peers, and tables of a name of their own.
    Peers,
    /// A stick table, which has the section's name.
    Proxy,
    /// Neither.
    Other,
}

/// The kind of section that a line with this first word opens, or none.
pub fn opened(word: &[u8]) -> Option<SectionKind>
    ensures { result ≡ opened word.now }
{
    if word == b"peers".as_slice() {
        Some(SectionKind::Peers)
    } else if is_proxy(word) {
        Some(SectionKind::Proxy)
    } else if is_other(word) {
        Some(SectionKind::Other)
    } else {
        None
    }
}

#[tactic(auto, unfolding(crate::specs::Sections::is_proxy))]
fn is_proxy(word: &[u8]) -> bool
    ensures { result ≡ is_proxy word.now }
{
    has_word(PROXIES, word)
}

#[tactic(auto, unfolding(crate::specs::Sections::is_other))]
fn is_other(word: &[u8]) -> bool
    ensures { result ≡ is_other word.now }
{
    has_word(OTHERS, word)
}

/// A line without its comment.
pub fn before_hash(line: &[u8]) -> &[u8]
    ensures { result.now ≡ before_hash line.now }
{
    match place_of(line, b'#') {
        None => line,
        Some(end) => &line[..end],
    }
}

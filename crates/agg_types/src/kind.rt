ghost use Rattle.std.specs.Prelude.{◌≡◌};
ghost use Rattle.agg_types.specs.Check.{len_fits};
ghost use Rattle.agg_types.specs.Kind.{allows, given_length, info, kind_length};
ghost use Rattle.agg_types.specs.Kind.{kind_name, kind_named, kind_number, kind_numbered};
ghost use Rattle.agg_types.specs.Kind.{takes_length, with_length};

use crate::KeyKind;
use crate::check::is_within;
use crate::limits::LONGEST_KEY;

/// How many kinds of keys there are.
pub const KINDS: usize = 5;

/// The length of a kind's keys, in bytes.
#[derive(Clone, Copy, Debug, PartialEq, Eq)]
pub enum KeyLength {
    /// Each key has it.
    Exactly(u64),
    /// No key is longer.
    AtMost(u64),
}

impl KeyLength {
    /// Whether a key may have so many bytes.
    #[inline]
    pub fn allows(self, len: u64) -> bool
        ensures { result ≡ allows self len }
    {
        match self {
            KeyLength::Exactly(exact) => len == exact,
            KeyLength::AtMost(most) => len <= most,
        }
    }
}

/// What names a kind of keys and tells how long they are.
#[derive(Clone, Copy, Debug, PartialEq, Eq)]
pub struct KindInfo {
    /// The type's number in a definition of the peers protocol.
    pub number: u64,
    /// The name that HAProxy gives it.
    pub name: &'static str,
    /// How long its keys are.
    pub length: KeyLength,
}

impl KindInfo {
    #[inline]
    fn of(number: u64, name: &'static str, length: KeyLength) -> KindInfo
        ensures number { result.number ≡ number }
        ensures name { result.name.now ≡ name.now }
        ensures length { result.length ≡ length }
    {
        KindInfo {
            number,
            name,
            length,
        }
    }
}

impl KeyKind {
    /// Every kind, by its number. Where a declaration gives one a length, it is 0.
    pub const ALL: [KeyKind; KINDS] = [
        KeyKind::Integer,
        KeyKind::Ip,
        KeyKind::Ipv6,
        KeyKind::Str(0),
        KeyKind::Binary(0),
    ];

    /// The number, the name and the length: a kind a line.
    #[inline]
    pub fn info(self) -> KindInfo
        ensures number { result.number ≡ (info self).number }
        ensures name { result.name.now ≡ (info self).name }
        ensures length { result.length ≡ (info self).length }
    {
        match self {
            KeyKind::Integer => KindInfo::of(2, "integer", KeyLength::Exactly(4)),
            KeyKind::Ip => KindInfo::of(4, "ip", KeyLength::Exactly(4)),
            KeyKind::Ipv6 => KindInfo::of(5, "ipv6", KeyLength::Exactly(16)),
            KeyKind::Str(most) => KindInfo::of(6, "string", KeyLength::AtMost(most)),
            KeyKind::Binary(exact) => KindInfo::of(7, "binary", KeyLength::Exactly(exact)),
        }
    }

    /// The type's number in a definition of the peers protocol.
    #[inline]
    pub fn number(self) -> u64
        ensures { result ≡ kind_number self }
    {
        self.info().number
    }

    /// The name that HAProxy gives it.
    pub fn name(self) -> &'static str
        ensures { result.now ≡ kind_name self }
    {
        self.info().name
    }

    /// How long its keys are.
    #[inline]
    pub fn length(self) -> KeyLength
        ensures { result ≡ kind_length self }
    {
        self.info().length
    }

    /// The kind of a name, or none. Its length is 0 where a declaration gives it one.
    pub fn from_name(name: &[u8]) -> Option<KeyKind>
        ensures { result ≡ kind_named name.now }
    {
        KeyKind::ALL
            .iter()
            .copied()
            .find(|kind| kind.name().as_bytes() == name)
    }

    /// The kind of a number, or none. Its length is 0 where a declaration gives it one.
    pub fn from_number(number: u64) -> Option<KeyKind>
        ensures { result ≡ kind_numbered number }
    {
        KeyKind::ALL
            .iter()
            .copied()
            .find(|kind| kind.number() == number)
    }

    /// The length that a declaration gives the kind, where it gives one.
    pub fn given_length(self) -> Option<u64>
        ensures { result ≡ given_length self }
    {
        match self {
            KeyKind::Integer | KeyKind::Ip | KeyKind::Ipv6 => None,
            KeyKind::Str(len) | KeyKind::Binary(len) => Some(len),
        }
    }

    /// Whether a declaration gives the kind a length.
    pub fn takes_length(self) -> bool
        ensures { result ≡ takes_length self }
    {
        self.given_length().is_some()
    }

    /// The kind with this length, where a declaration gives it one; else the kind as it is.
    pub fn with_length(self, len: u64) -> KeyKind
        ensures { result ≡ with_length self len }
    {
        match self {
            KeyKind::Integer | KeyKind::Ip | KeyKind::Ipv6 => self,
            KeyKind::Str(_) => KeyKind::Str(len),
            KeyKind::Binary(_) => KeyKind::Binary(len),
        }
    }

    /// Whether the length that a declaration gives the kind is one that keys may have.
    pub fn length_fits(self) -> bool
        ensures { result ≡ len_fits self }
    {
        match self.given_length() {
            None => true,
            Some(len) => is_within(len, LONGEST_KEY),
        }
    }
}

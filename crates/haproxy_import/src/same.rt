//! Whether two configurations are the same.

ghost use Rattle.std.specs.Prelude.{◌≡◌, ◌&&◌, true};
ghost use Rattle.haproxy_import.specs.Same.{is_plain, kind_len, same_cols, same_head, same_keep};
ghost use Rattle.haproxy_import.specs.Same.{same_kind, same_names, same_parts, same_peers};
ghost use Rattle.haproxy_import.specs.Same.{same_stored, same_table, same_tables};

use agg_types::{Col, Config, KeyKind, Name, Shape};

/// Whether they are, and have nothing but tables and peers: no filters, ranked lists and pushes, no
/// bound on all rows, and nothing that is logged or ignored.
pub(crate) fn same_config(one: &Config, other: &Config) -> bool
    ensures { result ≡ true → one.now ≡ other.now }
{
    same_parts(one, other)
}

fn same_parts(one: &Config, other: &Config) -> bool
    ensures { result ≡ same_parts one.now other.now }
{
    are_plain(one, other)
        && same_peers(one, other)
        && same_tables(one.tables.as_slice(), other.tables.as_slice())
}

fn are_plain(one: &Config, other: &Config) -> bool
    ensures { result ≡ (is_plain one.now && is_plain other.now) }
{
    is_plain(one) && is_plain(other)
}

fn same_peers(one: &Config, other: &Config) -> bool
    ensures { result ≡ same_peers one.now other.now }
{
    one.me.is(other.me.as_slice()) && same_names(one.peers.as_slice(), other.peers.as_slice())
}

fn is_plain(config: &Config) -> bool
    ensures { result ≡ is_plain config.now }
{
    config.filters.is_empty()
        && config.ranks.is_empty()
        && config.pushes.is_empty()
        && config.rows.is_none()
        && config.logs.is_empty()
        && config.ignored.is_empty()
}

fn same_names(some: &[Name], others: &[Name]) -> bool
    ensures { result ≡ same_names some.now others.now }
{
    match some {
        [] => others.is_empty(),
        [one, some @ ..] => match others {
            [] => false,
            [other, others @ ..] => one.is(other.as_slice()) && same_names(some, others),
        },
    }
}

fn same_tables(some: &[Shape], others: &[Shape]) -> bool
    ensures { result ≡ same_tables some.now others.now }
{
    match some {
        [] => others.is_empty(),
        [one, some @ ..] => match others {
            [] => false,
            [other, others @ ..] => same_table(one, other) && same_tables(some, others),
        },
    }
}

/// Whether two tables are the same.
pub(crate) fn same_table(one: &Shape, other: &Shape) -> bool
    ensures { result ≡ same_table one.now other.now }
{
    same_head(one, other)
        && one.size == other.size
        && same_keep(one.keep, other.keep)
        && same_cols(one.cols.as_slice(), other.cols.as_slice())
}

fn same_keep(one: Option<u64>, other: Option<u64>) -> bool
    ensures { result ≡ same_keep one other }
{
    match (one, other) {
        (None, None) => true,
        (Some(one), Some(other)) => one == other,
        _ => false,
    }
}

fn same_head(one: &Shape, other: &Shape) -> bool
    ensures { result ≡ same_head one.now other.now }
{
    one.name.is(other.name.as_slice()) && same_kind(one.kind, other.kind)
}

fn same_kind(one: KeyKind, other: KeyKind) -> bool
    ensures { result ≡ same_kind one other }
{
    one.number() == other.number() && kind_len(one) == kind_len(other)
}

fn kind_len(kind: KeyKind) -> u64
    ensures { result ≡ kind_len kind }
{
    kind.given_length().unwrap_or(0)
}

fn same_cols(some: &[(Col, u32)], others: &[(Col, u32)]) -> bool
    ensures { result ≡ same_cols some.now others.now }
{
    match some {
        [] => others.is_empty(),
        [one, some @ ..] => match others {
            [] => false,
            [other, others @ ..] => same_col(*one, *other) && same_cols(some, others),
        },
    }
}

fn same_col(one: (Col, u32), other: (Col, u32)) -> bool
    ensures { result ≡ same_stored one other }
{
    one.0.place() == other.0.place() && one.1 == other.1
}

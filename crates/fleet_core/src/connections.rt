//! The open connections, by number.

ghost use Rattle.std.specs.Prelude.{◌≡◌, ◌<◌, ◌^◌, ℕ, List, length, None, Some, IsSome, IfSome};
ghost use Rattle.std.specs.Prelude.{IfOk, OnOk, OnErr, map, option_map};
ghost use Rattle.std.specs.Option.{option_copied};
ghost use Rattle.fleet_core.specs.declared.connection.Connection.{Connection};
ghost use Rattle.fleet_core.specs.Feeding.{FeedsAt, IsAfter, IsClosedIf, IsSet, TellsAt};
ghost use Rattle.fleet_core.specs.Links.{found, HasNumbers, next_seq_at};

use crate::connection::{Connection, Outcome};
use agg_types::{Config, Key, NoMemory};
use pushed_keys::Pushed;
use std::alloc::Global;
use std::collections::BTreeMap;
use telling::Teller;

/// The open connections, by number.
pub type Connections = BTreeMap<u64, Connection>;

/// The number of the next event at a connection's seat, if it has one; none where it isn't open.
pub fn next_seq_at(connections: &Connections, conn: u64) -> Option<Option<u64>>
    ensures { result ≡ next_seq_at connections.now.entries conn }
{
    match connections.get(&conn) {
        None => None,
        Some(connection) => Some(connection.next_seq),
    }
}

/// What an open connection was told; none where it isn't open.
pub fn teller_at(connections: &Connections, conn: u64) -> Option<&Teller>
    ensures { option_copied result
        ≡ option_map (λ connection. connection.teller) (found connections.now.entries conn) }
{
    let connection = connections.get(&conn)?;
    Some(&connection.teller)
}

/// Opens a connection. After NoMemory all are as they were.
pub fn open(
    connections: &mut Connections,
    conn: u64,
    connection: Connection,
) -> Result<(), NoMemory>
    ensures ok { OnOk result (IsSet connections.old.entries connections.new.entries conn
        (Some connection)) }
    ensures err { OnErr result (connections.new.entries ≡ connections.old.entries) }
{
    connections.insert(conn, connection)?;
    Ok(())
}

/// Closes a connection.
pub fn close(connections: &mut Connections, conn: u64)
    ensures { IsSet connections.old.entries connections.new.entries conn None }
{
    connections.remove(&conn);
}

/// Closes a connection whose stream has ended.
pub fn close_if(connections: &mut Connections, conn: u64, ended: bool)
    ensures { IsClosedIf ended connections.old.entries connections.new.entries conn }
{
    if ended {
        close(connections, conn);
    }
}

/// An open connection makes a turn over the sets of the pushed tables at a moment, in ms, if its
/// hello was accepted: what it writes. After NoMemory all are as they were.
pub fn tell(
    alloc: Global,
    connections: &mut Connections,
    conn: u64,
    pushed: &[Pushed],
    sets: &[Vec<&Key>],
    now: u64,
) -> Result<Vec<u8>, NoMemory>
    requires open { IsSome (found connections.old.entries conn) }
    ensures ok { (before : Connection) → found connections.old.entries conn ≡ Some before
        → IfOk result (λ out. TellsAt out.items connections.old.entries connections.new.entries
        conn before pushed.now (map (λ set. map (λ key. key.now) set.items) sets.now) now) }
    ensures err { OnErr result (connections.new.entries ≡ connections.old.entries) }
{
    match connections.get_mut(&conn) {
        None => unreachable!(),
        Some(connection) => connection.tell(alloc, pushed, sets, now),
    }
}

/// Hands the next piece of its stream to an open connection. After NoMemory all are as they were.
pub fn feed(
    connections: &mut Connections,
    conn: u64,
    config: &Config,
    piece: &[u8],
    now: u64,
) -> Result<Outcome, NoMemory>
    requires open { IsSome (found connections.old.entries conn) }
    requires few { IfSome (found connections.old.entries conn) HasNumbers }
    ensures ok { (before : Connection) (bytes : List ℕ)
        → found connections.old.entries conn ≡ Some before → IsAfter before config.now bytes
        → IfOk result (λ given. FeedsAt given connections.old.entries connections.new.entries
        conn before config.now bytes piece.now) }
    ensures short { IfOk result (λ given. length given.facts < 2 ^ 63) }
    ensures err { OnErr result (connections.new.entries ≡ connections.old.entries) }
{
    match connections.get_mut(&conn) {
        None => unreachable!(),
        Some(connection) => connection.feed(config, piece, now),
    }
}

//! What is printed of what a connection was told.

ghost use Rattle.std.specs.Prelude.{◌≡◌, ◌++◌, ℕ, List, length, map, OnOk};
ghost use Rattle.std.specs.List.{flat_map};
ghost use Rattle.agg_types.specs.declared.config.Config.{Config};
ghost use Rattle.fleet_core.specs.declared.step.Step.{Step};
ghost use Rattle.fleet_core.specs.declared.step.Step.TheVariants.{Told};
ghost use Rattle.replay.specs.Given.{IsSettled};
ghost use Rattle.replay.specs.Tellings.{count_text, key_line, shown_text, table_head, table_text};
ghost use Rattle.replay.specs.Tellings.{tables_from};

use agg_types::{KeyKind, NoMemory};
use fleet_core::{Fleet, Step};
use key_text::{append_key, append_number, append_text};
use pushed_keys::{Pushed, pushed_of};
use std::alloc::Global;
use telling::Teller;

/// Appends what is printed behind a step that tells an open connection: the pushed tables, each
/// with the keys that it was told.
pub fn append_shown(
    alloc: Global,
    fleet: &Fleet,
    step: &Step,
    out: &mut Vec<u8>,
) -> Result<(), NoMemory>
    ensures { (config : Config) (opening : ℕ) (past : List Step)
        → IsSettled fleet.now config opening past
        → OnOk result (out.new.items
        ≡ out.old.items ++ shown_text config opening past step.now) }
{
    match step {
        Step::Told(conn) => append_told(alloc, fleet, *conn, out),
        _ => Ok(()),
    }
}

// Appends the pushed tables of a connection, if it is open.
fn append_told(alloc: Global, fleet: &Fleet, conn: u64, out: &mut Vec<u8>) -> Result<(), NoMemory>
    ensures { (config : Config) (opening : ℕ) (past : List Step)
        → IsSettled fleet.now config opening past
        → OnOk result (out.new.items
        ≡ out.old.items ++ shown_text config opening past (Told conn)) }
{
    let Some(teller) = fleet.told(conn) else {
        return Ok(());
    };
    let pushed = pushed_of(alloc, fleet.book().config())?;
    append_tables(
        alloc,
        conn,
        pushed.as_slice(),
        teller,
        fleet.book().moment(),
        out,
    )
}

// Appends the pushed tables of a connection, with the keys told at a moment, in ms.
fn append_tables(
    alloc: Global,
    conn: u64,
    pushed: &[Pushed],
    teller: &Teller,
    now: u64,
    out: &mut Vec<u8>,
) -> Result<(), NoMemory>
    ensures { OnOk result (out.new.items
        ≡ out.old.items ++ tables_from conn pushed.now teller.now now 0 pushed.now) }
{
    for (before, table) in pushed.iter().enumerate() {
        let keys = teller.told(alloc, pushed, before, now)?;
        append_table(conn, table, keys.as_slice(), out)?;
    }
    Ok(())
}

// Appends a pushed table of a connection, with the keys that it was told.
fn append_table(
    conn: u64,
    table: &Pushed,
    keys: &[&[u8]],
    out: &mut Vec<u8>,
) -> Result<(), NoMemory>
    ensures { OnOk result (out.new.items
        ≡ out.old.items ++ table_text conn table.now (map (λ key. key.now) keys.now)) }
{
    append_head(conn, table.name.as_slice(), out)?;
    append_count(keys.len() as u128, out)?;
    append_keys(table.kind, keys, out)
}

// Appends which table it is, and of which connection.
fn append_head(conn: u64, name: &[u8], out: &mut Vec<u8>) -> Result<(), NoMemory>
    ensures { OnOk result (out.new.items ≡ out.old.items ++ table_head conn name.now) }
{
    append_text(b"# table: ", out)?;
    append_text(name, out)?;
    append_text(b", conn: ", out)?;
    append_number(u128::from(conn), out)
}

fn append_count(count: u128, out: &mut Vec<u8>) -> Result<(), NoMemory>
    ensures { OnOk result (out.new.items ≡ out.old.items ++ count_text count) }
{
    append_text(b", keys:", out)?;
    append_number(count, out)?;
    append_text(b"\n", out)
}

// Appends a line for each key.
fn append_keys(kind: KeyKind, keys: &[&[u8]], out: &mut Vec<u8>) -> Result<(), NoMemory>
    ensures { OnOk result (out.new.items
        ≡ out.old.items ++ flat_map (key_line kind) (map (λ key. key.now) keys.now)) }
{
    for key in keys {
        append_line(kind, key, out)?;
    }
    Ok(())
}

fn append_line(kind: KeyKind, key: &[u8], out: &mut Vec<u8>) -> Result<(), NoMemory>
    ensures { OnOk result (out.new.items ≡ out.old.items ++ key_line kind key.now) }
{
    append_text(b"key=", out)?;
    append_key(kind, key, out)?;
    append_text(b"\n", out)
}

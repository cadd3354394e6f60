//! What a line declares, put behind what the lines before it declared.

ghost use Rattle.std.specs.Prelude.{◌≡◌, ◌++◌, ◌∷◌, ◌-◌, [], Some, length, map, remove};
ghost use Rattle.std.specs.Prelude.{◌<◌, not, slice_get, true};
ghost use Rattle.agg_types.specs.Check.{FindsFirst, all_faults, fault_if, is_within, peer_faults};
ghost use Rattle.agg_types.specs.Name.{is_name};
ghost use Rattle.agg_types.specs.declared.check.ConfigFault.TheVariants.{BadName, Duplicate};
ghost use Rattle.agg_types.specs.declared.limits.TheConstants.{MOST_ROWS};
ghost use Rattle.agg_config.specs.Reading.{Puts, declaring, table_at, wrong_check};
ghost use Rattle.agg_config.specs.declared.declarations.Declaration.TheVariants.{Me, Peer, Table};
ghost use Rattle.agg_config.specs.declared.declarations.Declaration.TheVariants.{Filter as Filters};
ghost use Rattle.agg_config.specs.declared.declarations.Declaration.TheVariants.{Rank as Ranks};
ghost use Rattle.agg_config.specs.declared.declarations.Declaration.TheVariants.{Push as Pushes};
ghost use Rattle.agg_config.specs.declared.declarations.Declaration.TheVariants.{Rows, Log, Ignore};

use crate::LineCause;
use crate::causes::Wrong;
use crate::declarations::Declaration;
use agg_types::limits::{MOST_PEERS, MOST_ROWS};
use agg_types::{
    Config, ConfigFault, Declared, Filter, Ignored, Logged, Name, Named, Push, Rank, Shape,
};

/// Puts a declaration behind the others, where it goes with them. Else they stay as they were: so
/// the next line is judged at no more cost behind a faulty one.
pub(crate) fn declare(config: &mut Config, declaration: Declaration) -> Result<(), Wrong>
    requires { all_faults config.old ≡ [] }
    ensures { Puts config.old (declaring config.old declaration) result config.new }
{
    match declaration {
        Declaration::Me(name) => declare_me(config, name),
        Declaration::Peer(name) => declare_peer(config, name),
        Declaration::Table(shape) => declare_table(config, shape),
        Declaration::Filter { name, table, conds } => {
            let table = table_at(&config.tables, table.as_slice());
            declare_filter(config, Filter { name, table, conds })
        }
        Declaration::Rank {
            name,
            table,
            col,
            n,
        } => {
            let table = table_at(&config.tables, table.as_slice());
            declare_rank(
                config,
                Rank {
                    name,
                    table,
                    col,
                    n,
                },
            )
        }
        Declaration::Push(push) => declare_push(config, push),
        Declaration::Rows(rows) => declare_rows(config, rows),
        Declaration::Log(logged) => declare_log(config, logged),
        Declaration::Ignore(ignored) => declare_ignored(config, ignored),
    }
}

// The position of the table of a name; past the last where there is none, so that it is unknown.
fn table_at(tables: &Declared<Shape>, name: &[u8]) -> usize
    ensures { result ≡ table_at tables.now name.now }
{
    match tables.position(name) {
        None => tables.len(),
        Some(table) => table,
    }
}

fn declare_me(config: &mut Config, name: Name) -> Result<(), Wrong>
    requires { all_faults config.old ≡ [] }
    ensures { Puts config.old (record config.old { me = name }) result config.new }
{
    if !name.is_valid() {
        return Err(wrong_check(ConfigFault::BadName));
    }
    config.me = name;
    Ok(())
}

// A peer is judged by itself, because a file may name many: the others have no fault.
fn declare_peer(config: &mut Config, name: Name) -> Result<(), Wrong>
    requires { all_faults config.old ≡ [] }
    ensures { Puts config.old (record config.old { peers = config.old.peers ++ name ∷ [] }) result
        config.new }
{
    match check_peer(&config.peers, &name) {
        Ok(()) => {
            config.peers.push(name)?;
            Ok(())
        }
        Err(fault) => Err(wrong_check(fault)),
    }
}

// The first fault of a peer behind others.
#[tactic(auto, unfolding(agg_types::specs::Check::peer_faults))]
fn check_peer(before: &Declared<Name>, name: &Name) -> Result<(), ConfigFault>
    ensures { FindsFirst result (peer_faults before.now name.now) }
{
    if before.len() >= MOST_PEERS {
        return Err(ConfigFault::TooMany);
    }
    if !name.is_valid() {
        return Err(ConfigFault::BadName);
    }
    if before.contains(name.as_slice()) {
        return Err(ConfigFault::Duplicate);
    }
    Ok(())
}

fn declare_table(config: &mut Config, shape: Shape) -> Result<(), Wrong>
    ensures { Puts config.old (record config.old { tables = config.old.tables ++ shape ∷ [] })
        result config.new }
{
    config.tables.push(shape)?;
    match config.check() {
        Ok(()) => Ok(()),
        Err(fault) => {
            take_last(&mut config.tables);
            Err(wrong_check(fault))
        }
    }
}

fn declare_filter(config: &mut Config, filter: Filter) -> Result<(), Wrong>
    ensures { Puts config.old (record config.old { filters = config.old.filters ++ filter ∷ [] })
        result config.new }
{
    config.filters.push(filter)?;
    match config.check() {
        Ok(()) => Ok(()),
        Err(fault) => {
            take_last(&mut config.filters);
            Err(wrong_check(fault))
        }
    }
}

fn declare_rank(config: &mut Config, rank: Rank) -> Result<(), Wrong>
    ensures { Puts config.old (record config.old { ranks = config.old.ranks ++ rank ∷ [] })
        result config.new }
{
    config.ranks.push(rank)?;
    match config.check() {
        Ok(()) => Ok(()),
        Err(fault) => {
            take_last(&mut config.ranks);
            Err(wrong_check(fault))
        }
    }
}

fn declare_push(config: &mut Config, push: Push) -> Result<(), Wrong>
    ensures { Puts config.old (record config.old { pushes = config.old.pushes ++ push ∷ [] })
        result config.new }
{
    config.pushes.push(push)?;
    match config.check() {
        Ok(()) => Ok(()),
        Err(fault) => {
            take_last(&mut config.pushes);
            Err(wrong_check(fault))
        }
    }
}

fn declare_log(config: &mut Config, logged: Logged) -> Result<(), Wrong>
    ensures { Puts config.old (record config.old { logs = config.old.logs ++ logged ∷ [] })
        result config.new }
{
    config.logs.push(logged)?;
    match config.check() {
        Ok(()) => Ok(()),
        Err(fault) => {
            take_last(&mut config.logs);
            Err(wrong_check(fault))
        }
    }
}

fn declare_ignored(config: &mut Config, ignored: Ignored) -> Result<(), Wrong>
    ensures { Puts config.old (record config.old { ignored = config.old.ignored ++ ignored ∷ [] })
        result config.new }
{
    config.ignored.push(ignored)?;
    match config.check() {
        Ok(()) => Ok(()),
        Err(fault) => {
            take_last(&mut config.ignored);
            Err(wrong_check(fault))
        }
    }
}

// Takes the last declaration away.
fn take_last<T: Named>(entries: &mut Declared<T>)
    requires { 0 < length entries.old }
    ensures { entries.new ≡ remove entries.old (length entries.old - 1) }
{
    entries.remove(entries.len() - 1);
}

fn declare_rows(config: &mut Config, rows: u64) -> Result<(), Wrong>
    requires { all_faults config.old ≡ [] }
    ensures { Puts config.old (record config.old { rows = Some rows }) result config.new }
{
    if !bound_fits(rows) {
        return Err(wrong_check(ConfigFault::BadSize));
    }
    config.rows = Some(rows);
    Ok(())
}

fn bound_fits(rows: u64) -> bool
    ensures { result ≡ is_within rows MOST_ROWS }
{
    1 <= rows && rows <= MOST_ROWS
}

/// What is wrong with a second name of the collector.
pub(crate) fn second_name(name: &Name) -> Wrong
    ensures { Some result ≡ slice_get (map wrong_check
        (fault_if (not (is_name name.now)) BadName ++ fault_if true Duplicate)) 0 }
{
    if name.is_valid() {
        wrong_check(ConfigFault::Duplicate)
    } else {
        wrong_check(ConfigFault::BadName)
    }
}

/// What a line declares goes against the lines before it.
pub(crate) fn wrong_check(fault: ConfigFault) -> Wrong
    ensures { result ≡ wrong_check fault }
{
    Wrong {
        cause: LineCause::Check(fault),
        place: None,
    }
}

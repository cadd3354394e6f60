ghost use Rattle.std.specs.Prelude.{◌≡◌, [], map};
ghost use Rattle.std.specs.List.{list_all, list_any};
ghost use Rattle.std.specs.Str.{bytes_eq};
ghost use Rattle.agg_types.specs.Col.{col_id};
ghost use Rattle.agg_types.specs.FaultName.{config_fault_name};
ghost use Rattle.agg_types.specs.Check.{FindsFirst, all_faults, ascends, each, filter_faults};
ghost use Rattle.agg_types.specs.Check.{hold_fits, is_within, keep_fits, peer_faults, period_fits};
ghost use Rattle.agg_types.specs.Check.{ignored_faults, log_faults, push_faults, rank_faults};
ghost use Rattle.agg_types.specs.Check.{rows_fit, table_faults};

use crate::fits::all_stored;
use crate::limits::{
    HOLD_END, LARGEST_SIZE, LONGEST_RANK, MOST_CONDS, MOST_FILTERS, MOST_IGNORED, MOST_LOGS,
    MOST_PEERS, MOST_PUSHES, MOST_RANKS, MOST_ROWS, MOST_TABLES, PERIOD_END, SHORTEST_HOLD,
};
use crate::{Col, Config, Declared, Filter, Ignored, Logged, Name, Named, Push, Rank, Shape};
use std::error::Error;
use std::fmt;

/// What is wrong with a configuration. Its text is its name.
#[derive(Clone, Copy, Debug, PartialEq, Eq)]
pub enum ConfigFault {
    /// A name stands twice among its kind, a table's columns don't ascend, a pushed filter has the
    /// name of a table, or a table is both followed and ignored.
    Duplicate,
    /// More peers, tables, filters, conditions, ranked lists, pushed filters, logged filters or
    /// ignored tables than there may be.
    TooMany,
    /// A filter or a ranked list of a table that isn't there.
    UnknownTable,
    /// A condition or a ranked list on a column that its table doesn't store.
    UnknownColumn,
    /// A rate without a period of 1 to 2^31 - 1 ms, or a count with one; a longest life of rows
    /// outside 1 to 2^31 - 1 ms; a hold outside 1,000 to 2^31 - 1 ms.
    BadPeriod,
    /// A table's size or key length, a list's length, a filter's conditions or the bound on all
    /// rows out of range.
    BadSize,
    /// A name that is empty, has more than 128 bytes, or a byte outside 33 to 126.
    BadName,
    /// A push or a log of a filter that isn't there.
    UnknownFilter,
}

impl ConfigFault {
    /// Its name, which is its text.
    pub fn name(self) -> &'static str
        ensures { result.now ≡ config_fault_name self }
    {
        match self {
            ConfigFault::Duplicate => "Duplicate",
            ConfigFault::TooMany => "TooMany",
            ConfigFault::UnknownTable => "UnknownTable",
            ConfigFault::UnknownColumn => "UnknownColumn",
            ConfigFault::BadPeriod => "BadPeriod",
            ConfigFault::BadSize => "BadSize",
            ConfigFault::BadName => "BadName",
            ConfigFault::UnknownFilter => "UnknownFilter",
        }
    }
}

impl fmt::Display for ConfigFault {
    fn fmt<W: fmt::Write>(&self, f: &mut fmt::Formatter<W>) -> fmt::Result {
        let name = self.name();
        write!(f, "{name}")
    }
}

impl Error for ConfigFault {}

impl Config {
    /// Whether the configuration is sound. The fault is the first, in the order of the collector's
    /// name, peers, tables, filters, ranked lists, pushed filters, the bound on all rows, logged
    /// filters and ignored tables; in an entry TooMany comes first, then BadName, Duplicate,
    /// UnknownTable, UnknownColumn, UnknownFilter, BadPeriod, BadSize.
    pub fn check(&self) -> Result<(), ConfigFault>
        ensures { FindsFirst result (all_faults self.now) }
    {
        if !self.me.is_valid() {
            return Err(ConfigFault::BadName);
        }
        check_each(self, &self.peers)?;
        check_each(self, &self.tables)?;
        check_each(self, &self.filters)?;
        check_each(self, &self.ranks)?;
        check_each(self, &self.pushes)?;
        if !rows_fit(self.rows) {
            return Err(ConfigFault::BadSize);
        }
        check_each(self, &self.logs)?;
        check_each(self, &self.ignored)
    }
}

// What `Config::check` judges an entry by.
trait Checked: Named {
    ghost use Rattle.std.specs.Prelude.{List};
    ghost use Rattle.agg_types.specs.declared.check.ConfigFault.{ConfigFault};
    ghost use Rattle.agg_types.specs.declared.config.Config.{Config};

    // The faults of an entry, which follow from its configuration and the entries before it.
    ghost faults: { Config → List Self → Self → List ConfigFault };

    // The first fault of an entry, where `named` says whether one before it has its name.
    fn check_behind(&self, config: &Config, before: &[Self], named: bool) -> Result<(), ConfigFault>
        requires { named ≡ list_any (λ other. bytes_eq (Self.name_of other) (Self.name_of self.now))
            before.now }
        ensures { FindsFirst result (faults config.now before.now self.now) };
}

fn check_each<T: Checked>(config: &Config, entries: &Declared<T>) -> Result<(), ConfigFault>
    ensures { FindsFirst result (each (T.faults config.now) [] entries.now) }
{
    let listed = entries.as_slice();
    for (i, entry) in listed.iter().enumerate() {
        let named = entries.has_before(i, entry.name());
        entry.check_behind(config, &listed[..i], named)?;
    }
    Ok(())
}

impl Checked for Name {
    ghost faults = { λ _. peer_faults };

    #[tactic(auto, unfolding(crate::specs::Check::peer_faults))]
    fn check_behind(
        &self,
        _config: &Config,
        before: &[Name],
        named: bool,
    ) -> Result<(), ConfigFault> {
        if before.len() >= MOST_PEERS {
            return Err(ConfigFault::TooMany);
        }
        if !self.is_valid() {
            return Err(ConfigFault::BadName);
        }
        if named {
            return Err(ConfigFault::Duplicate);
        }
        Ok(())
    }
}

impl Checked for Shape {
    ghost faults = { λ _. table_faults };

    #[tactic(auto, unfolding(crate::specs::Check::table_faults))]
    fn check_behind(
        &self,
        _config: &Config,
        before: &[Shape],
        named: bool,
    ) -> Result<(), ConfigFault> {
        if before.len() >= MOST_TABLES {
            return Err(ConfigFault::TooMany);
        }
        if !self.name.is_valid() {
            return Err(ConfigFault::BadName);
        }
        if named || !ascends(self.cols.as_slice()) {
            return Err(ConfigFault::Duplicate);
        }
        if !all_periods_fit(self.cols.as_slice()) || !keep_fits(self.keep) {
            return Err(ConfigFault::BadPeriod);
        }
        if !is_within(self.size, LARGEST_SIZE) || !self.kind.length_fits() {
            return Err(ConfigFault::BadSize);
        }
        Ok(())
    }
}

impl Checked for Filter {
    ghost faults = { λ config. filter_faults config.tables };

    #[tactic(auto, unfolding(crate::specs::Check::filter_faults))]
    fn check_behind(
        &self,
        config: &Config,
        before: &[Filter],
        named: bool,
    ) -> Result<(), ConfigFault> {
        let conds = self.conds.as_slice();
        if before.len() >= MOST_FILTERS || conds.len() > MOST_CONDS {
            return Err(ConfigFault::TooMany);
        }
        if !self.name.is_valid() {
            return Err(ConfigFault::BadName);
        }
        if named {
            return Err(ConfigFault::Duplicate);
        }
        let Some(shape) = config.tables.get(self.table) else {
            return Err(ConfigFault::UnknownTable);
        };
        if !all_stored(shape.cols.as_slice(), conds) {
            return Err(ConfigFault::UnknownColumn);
        }
        if conds.is_empty() {
            return Err(ConfigFault::BadSize);
        }
        Ok(())
    }
}

impl Checked for Rank {
    ghost faults = { λ config. rank_faults config.tables };

    #[tactic(auto, unfolding(crate::specs::Check::rank_faults))]
    fn check_behind(
        &self,
        config: &Config,
        before: &[Rank],
        named: bool,
    ) -> Result<(), ConfigFault> {
        if before.len() >= MOST_RANKS {
            return Err(ConfigFault::TooMany);
        }
        if !self.name.is_valid() {
            return Err(ConfigFault::BadName);
        }
        if named {
            return Err(ConfigFault::Duplicate);
        }
        let Some(shape) = config.tables.get(self.table) else {
            return Err(ConfigFault::UnknownTable);
        };
        if !shape.stores(self.col) {
            return Err(ConfigFault::UnknownColumn);
        }
        if !is_within(self.n, LONGEST_RANK) {
            return Err(ConfigFault::BadSize);
        }
        Ok(())
    }
}

impl Checked for Push {
    ghost faults = { λ config. push_faults config.tables config.filters };

    #[tactic(auto, unfolding(crate::specs::Check::push_faults))]
    fn check_behind(
        &self,
        config: &Config,
        before: &[Push],
        named: bool,
    ) -> Result<(), ConfigFault> {
        if before.len() >= MOST_PUSHES {
            return Err(ConfigFault::TooMany);
        }
        if named || config.tables.contains(self.name.as_slice()) {
            return Err(ConfigFault::Duplicate);
        }
        if !config.filters.contains(self.name.as_slice()) {
            return Err(ConfigFault::UnknownFilter);
        }
        if !hold_fits(self.hold) {
            return Err(ConfigFault::BadPeriod);
        }
        Ok(())
    }
}

impl Checked for Logged {
    ghost faults = { λ config. log_faults config.filters };

    #[tactic(auto, unfolding(crate::specs::Check::log_faults))]
    fn check_behind(
        &self,
        config: &Config,
        before: &[Logged],
        named: bool,
    ) -> Result<(), ConfigFault> {
        if before.len() >= MOST_LOGS {
            return Err(ConfigFault::TooMany);
        }
        if named {
            return Err(ConfigFault::Duplicate);
        }
        if !config.filters.contains(self.filter.as_slice()) {
            return Err(ConfigFault::UnknownFilter);
        }
        Ok(())
    }
}

impl Checked for Ignored {
    ghost faults = { λ config. ignored_faults config.tables };

    #[tactic(auto, unfolding(crate::specs::Check::ignored_faults))]
    fn check_behind(
        &self,
        config: &Config,
        before: &[Ignored],
        named: bool,
    ) -> Result<(), ConfigFault> {
        if before.len() >= MOST_IGNORED {
            return Err(ConfigFault::TooMany);
        }
        if !self.table.is_valid() {
            return Err(ConfigFault::BadName);
        }
        if named || config.tables.contains(self.table.as_slice()) {
            return Err(ConfigFault::Duplicate);
        }
        Ok(())
    }
}

fn hold_fits(hold: Option<u64>) -> bool
    ensures { result ≡ hold_fits hold }
{
    match hold {
        None => true,
        Some(hold) => SHORTEST_HOLD <= hold && hold < HOLD_END,
    }
}

fn keep_fits(keep: Option<u64>) -> bool
    ensures { result ≡ keep_fits keep }
{
    match keep {
        None => true,
        Some(keep) => 1 <= keep && keep < u64::from(PERIOD_END),
    }
}

fn rows_fit(rows: Option<u64>) -> bool
    ensures { result ≡ rows_fit rows }
{
    match rows {
        None => true,
        Some(rows) => is_within(rows, MOST_ROWS),
    }
}

fn ascends(cols: &[(Col, u32)]) -> bool
    ensures { result ≡ ascends (map (λ col. col_id col.0) cols.now) }
{
    match cols {
        [] => true,
        [first, rest @ ..] => match rest {
            [] => true,
            [second, ..] => first.0.id() < second.0.id() && ascends(rest),
        },
    }
}

fn all_periods_fit(cols: &[(Col, u32)]) -> bool
    ensures { result ≡ list_all period_fits cols.now }
{
    cols.iter().all(|col| period_fits(col.0, col.1))
}

fn period_fits(col: Col, period: u32) -> bool
    ensures { result ≡ period_fits (col, period) }
{
    if col.is_rate() {
        1 <= period && period < PERIOD_END
    } else {
        period == 0
    }
}

pub(crate) fn is_within(number: u64, most: u64) -> bool
    ensures { result ≡ is_within number most }
{
    1 <= number && number <= most
}

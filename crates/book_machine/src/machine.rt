//! What a book holds, how a row is put, and how rows are cleared.

ghost use Rattle.std.specs.Prelude.{◌≡◌, ◌<◌, ◌≤◌, ◌&&◌, ◌==◌, length};
ghost use Rattle.std.specs.Prelude.{not, if◌then◌else◌, false, filter, IfOk, OnOk, OnErr};
ghost use Rattle.agg_types.specs.Whats.{lent_cells};
ghost use Rattle.agg_types.specs.declared.limits.TheConstants.{LAST_MOMENT};
ghost use Rattle.fleet_model.specs.Filters.{is_new};
ghost use Rattle.fleet_model.specs.Keys.{key_rows, sum_of};
ghost use Rattle.fleet_model.specs.Machine.{opened, with_row};
ghost use Rattle.fleet_model.specs.Rows.{arrival_of, has_room, held_rows};
ghost use Rattle.fleet_model.specs.Seats.{is_number};
ghost use Rattle.fleet_model.specs.Values.{cols_of, selects};
ghost use Rattle.book_machine.specs.Gone.{is_gone, without_keys};
ghost use Rattle.book_machine.specs.declared.gone.Gone.TheVariants.{Nothing};
ghost use Rattle.book_rows.specs.First.{ListsFirst};
ghost use Rattle.book_machine.specs.Leading.{AreLed};
ghost use Rattle.book_rows.specs.Listing.{ListsMeeting};
ghost use Rattle.book_rows.specs.Planned.{IsInside, IsShort, place_at};
ghost use Rattle.book_rows.specs.Store.{row_keys};
ghost use Rattle.book_machine.specs.Uses.{has_list};

use crate::clears::{clear_one, clear_table, clear_where};
use crate::gone::Gone;
use crate::leaders::put_led;
use agg_types::{Cond, Config, Filter, Key, LentCells, MOST_FILTERS, NoMemory, Select};
use book_frame::seats::{Seats, Sessions, is_number};
use book_frame::standing::cols_of;
use book_rows::{At, BookRows, Size, Sought, Store, first_meeting, meeting, queries};
use fleet_model::Summed;
use peer_rows::Spot;
use ranked::Leaders;
use std::alloc::Global;
use std::collections::BTreeMap;
use std::marker::Model;

/// What became of an event, beside the state that it leaves.
#[derive(Clone, Copy, Debug)]
pub struct Applied {
    /// Where the rows of a Put's key lay before it, if that was seen.
    pub spot: Option<Spot>,
    /// Whether it is an update that wasn't taken for want of room.
    pub dropped: bool,
}

impl Applied {
    /// No row was seen, and nothing was dropped.
    pub(crate) fn unseen() -> Applied
        ensures { result.dropped ≡ false }
    {
        Applied {
            spot: None,
            dropped: false,
        }
    }
}

/// What became of an event, and which keys of its table it took the rows of.
#[derive(Debug, Drop)]
pub struct Outcome {
    /// What became of it.
    pub applied: Applied,
    /// The keys of its table that it took the rows of.
    pub gone: Gone,
}

impl Outcome {
    /// No row was seen, nothing was dropped, and no key is gone.
    pub(crate) fn unseen() -> Outcome
        ensures dropped { result.applied.dropped ≡ false }
        ensures gone { result.gone ≡ Nothing }
    {
        Outcome::of(Applied::unseen())
    }

    /// An update: no key is gone by it.
    pub(crate) fn of(applied: Applied) -> Outcome
        ensures applied { result.applied ≡ applied }
        ensures gone { result.gone ≡ Nothing }
    {
        Outcome {
            applied,
            gone: Gone::Nothing,
        }
    }
}

/// What a book holds. Contracts see the state: the configuration with the filters that stand, the
/// moment, the rows in force, the sessions and the seats.
pub struct Machine {
    /// Where its memory comes from.
    pub alloc: Global,
    /// The configuration, with the filters that stand.
    pub config: Config,
    /// How many of its filters were configured.
    pub configured: usize,
    /// The moment, in ms.
    pub moment: u64,
    /// The rows in force.
    pub rows: Store,
    // Bounds for each ranked list, by its position.
    pub(crate) leaders: Leaders,
    /// The session in force of each peer that has one.
    pub sessions: Sessions,
    /// The number of the next event of each seat.
    pub seats: Seats,
    pub(crate) next_seat: u64,
}

// By hand, so that a crate that drops a listing of a book proves nothing of the book's parts.
impl Drop for Machine {
    fn drop(self) {
        let Machine {
            alloc: _,
            config: _,
            configured: _,
            moment: _,
            rows: _,
            leaders: _,
            sessions: _,
            seats: _,
            next_seat: _,
        } = self;
    }
}

impl Model for Machine {
    ghost use Rattle.fleet_model.specs.State.{State};

    ghost Value = { State };

    ghost view = { λ b. record {
      config = b.config;
      configured = b.configured;
      moment = b.moment;
      rows = b.rows.rows;
      sessions = b.sessions.entries;
      seats = b.seats.entries;
      next_seat = b.next_seat;
    } };

    ghost use Rattle.book_machine.specs.Leading.{IsWhole};

    ghost invariant = { λ b. IsWhole b.config b.moment b.rows b.leaders };
}

impl Machine {
    /// A machine to which nothing has happened yet.
    #[tactic(auto, unfolding(fleet_model::specs::Machine::opened))]
    pub fn new(alloc: Global, config: Config, moment: u64) -> Result<Machine, NoMemory>
        requires { moment ≤ LAST_MOMENT }
        ensures { IfOk result (λ machine. machine ≡ opened config moment) }
    {
        let size = Size {
            peers: config.peers.len(),
            tables: config.tables.len(),
        };
        let rows = Store::new(alloc, size)?;
        let leaders = Leaders::new(alloc, config.ranks.len())?;
        let configured = config.filters.len();
        Ok(Machine {
            alloc,
            config,
            configured,
            moment,
            rows,
            leaders,
            sessions: BTreeMap::new(alloc),
            seats: BTreeMap::new(alloc),
            next_seat: 0,
        })
    }

    /// How many keys of a table have a row.
    pub fn used(&self, table: usize) -> usize
        ensures { result ≡ length (row_keys self.now.rows table) }
    {
        self.rows.used(table)
    }

    /// How many rows a peer holds of a table.
    pub fn rows_held(&self, table: usize, peer: usize) -> usize
        requires table_in { table < length self.now.config.tables }
        requires peer_in { peer < length self.now.config.peers }
        ensures { result ≡ held_rows self.now.rows table peer }
    {
        self.rows.held(table, peer)
    }

    /// What the rows of a key sum up to.
    pub fn summed(&self, table: usize, key: &Key) -> Option<Summed>
        ensures { result ≡ sum_of (cols_of self.now.config.tables table)
            (key_rows self.now.rows table key.now) self.now.moment }
    {
        let cols = cols_of(self.config.tables.as_slice(), table);
        queries::summed(&self.rows, cols, table, key, self.moment)
    }

    /// The keys of a table whose values meet all conditions, each with its summed row.
    pub fn meeting(
        &self,
        alloc: Global,
        table: usize,
        conds: &[Cond],
    ) -> Result<BookRows<'_>, NoMemory>
        ensures { IfOk result (λ rows. ListsMeeting self.now.rows table
            (cols_of self.now.config.tables table) conds.now self.now.moment rows) }
    {
        let cols = cols_of(self.config.tables.as_slice(), table);
        meeting(alloc, &self.rows, cols, table, conds, self.moment)
    }

    /// The first keys of a table that are sought, each with its summed row.
    pub fn first_meeting(
        &self,
        alloc: Global,
        table: usize,
        sought: Sought<'_>,
    ) -> Result<BookRows<'_>, NoMemory>
        ensures { IfOk result (λ rows. ListsFirst self.now.rows table
            (cols_of self.now.config.tables table) self.now.moment sought.entry rows) }
    {
        let cols = cols_of(self.config.tables.as_slice(), table);
        first_meeting(alloc, &self.rows, cols, table, self.moment, sought)
    }

    /// Whether a filter is taken as it is added: fewer stand than may, and none has its name.
    pub fn takes(&self, filter: &Filter) -> bool
        ensures { result ≡ is_new self.now.config.filters filter.now }
    {
        let filters = &self.config.filters;
        filters.len() < MOST_FILTERS && !filters.contains(filter.name.as_slice())
    }
}

/// Takes away the rows that a clear selects, judged by the values that stand before it, and the
/// bounds of their keys. Answers which keys these are.
pub(crate) fn clear(
    alloc: Global,
    rows: &mut Store,
    leaders: &mut Leaders,
    config: &Config,
    table: usize,
    t: u64,
    sel: &Select,
) -> Result<Gone, NoMemory>
    requires { AreLed config.now.tables config.now.ranks rows.old.rows t leaders.old }
    ensures ok { OnOk result (rows.new ≡ record rows.old {
      rows = filter (λ row. not
          ((row.0.table == table)
          && selects (cols_of config.now.tables table) rows.old.rows table t sel.now row.0.key))
          rows.old.rows;
    }) }
    ensures gone { IfOk result (λ gone.
        rows.new.rows ≡ without_keys table (is_gone gone) rows.old.rows) }
    ensures err { OnErr result (rows.new ≡ rows.old) }
    ensures led { AreLed config.now.tables config.now.ranks rows.new.rows t leaders.new }
{
    let ranks = config.ranks.as_slice();
    match sel {
        Select::All => {
            clear_table(rows, leaders, ranks, table, t);
            Ok(Gone::Table)
        }
        Select::One(key) => {
            let alone = clear_one(alloc, rows, leaders, ranks, table, key, t)?;
            Ok(Gone::Keys(alone))
        }
        Select::Conds(conds) => {
            let cols = cols_of(config.tables.as_slice(), table);
            let conds = conds.as_slice();
            clear_where(alloc, rows, leaders, ranks, cols, table, t, conds)
        }
    }
}

/// Puts a row, if its seat is the session in force and there is room, and answers whether there was
/// none.
#[inline(always)]
pub(crate) fn put(
    rows: &mut Store,
    leaders: &mut Leaders,
    config: &Config,
    session: Option<u64>,
    seat: u64,
    t: u64,
    at: At<'_>,
    life: Option<u64>,
    cells: LentCells<'_>,
) -> Result<Applied, NoMemory>
    requires in_range { t ≤ LAST_MOMENT }
    requires inside { IsInside rows.old.peers rows.old.tables (place_at at) }
    requires short { IsShort life }
    requires ranked { at.is_ranked ≡ has_list config.now at.table }
    requires led { AreLed config.now.tables config.now.ranks rows.old.rows t leaders.old }
    ensures ok { OnOk result (rows.new ≡ record rows.old {
      rows = if is_number session seat
          && has_room config.now rows.old.rows (place_at at.entry) life
          then with_row t rows.old.rows (place_at at.entry)
          (arrival_of config.now.tables at.entry.table t life (lent_cells cells.entry))
          else rows.old.rows;
    }) }
    ensures dropped { IfOk result (λ applied. applied.dropped ≡ (is_number session seat
        && not (has_room config.now rows.old.rows (place_at at.entry) life))) }
    ensures err { OnErr result (rows.new ≡ rows.old) }
    ensures led { AreLed config.now.tables config.now.ranks rows.new.rows t leaders.new }
{
    if !is_number(session, seat) {
        return Ok(Applied::unseen());
    }
    if !rows.has_room(config, at, life) {
        return Ok(Applied {
            spot: at.spot,
            dropped: true,
        });
    }
    let spot = put_led(rows, leaders, config, t, at, life, cells)?;
    Ok(Applied {
        spot,
        dropped: false,
    })
}

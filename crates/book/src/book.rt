ghost use Rattle.std.specs.Prelude.{◌≡◌, ◌<◌, ◌≤◌, ℕ, List, map, length, nat_lt, take};
ghost use Rattle.std.specs.Prelude.{false, [], ◌∷◌, ◌++◌, IfOk, IsOk, OnOk, OnErr};
ghost use Rattle.std.specs.Option.{option_copied};
ghost use Rattle.agg_types.specs.Check.{config_faults};
ghost use Rattle.agg_types.specs.declared.config.Config.{Config};
ghost use Rattle.agg_types.specs.declared.event.Event.{Event};
ghost use Rattle.agg_types.specs.declared.event.What.TheVariants.{Leave};
ghost use Rattle.agg_types.specs.declared.limits.TheConstants.{LAST_MOMENT, MOST_SEATS};
ghost use Rattle.agg_types.specs.declared.limits.TheConstants.{MOST_CONDS};
ghost use Rattle.fleet_model.specs.Answers.{filter_of, keys_of, listed, set_at, summed};
ghost use Rattle.fleet_model.specs.Changes.{IsKeyChange};
ghost use Rattle.fleet_model.specs.Filters.{is_added};
ghost use Rattle.fleet_model.specs.Keys.{holds};
ghost use Rattle.fleet_model.specs.Machine.{after, counts_now, number_of, opened};
ghost use Rattle.fleet_model.specs.Machine.{session_of};
ghost use Rattle.fleet_model.specs.Next.{IsNextChange};
ghost use Rattle.fleet_model.specs.Ranking.{rank_of, ranked};
ghost use Rattle.fleet_model.specs.Rows.{held_rows};
ghost use Rattle.fleet_model.specs.Sound.{IsSound};
ghost use Rattle.fleet_model.specs.State.{IsStateOf};
ghost use Rattle.book.specs.ByPeer.{peer_rows};
ghost use Rattle.book_machine.specs.Dropped.{is_dropped};
ghost use Rattle.book_rows.specs.First.{first_behind};
ghost use Rattle.book.specs.Flips.{TellsAllIfKnown};
ghost use Rattle.book.specs.Reads.{IsFewFor, IsQuietTo};
ghost use Rattle.book_frame.specs.Lent.{listed_where, shown_row};

use crate::by_peer::PeerRows;
use crate::foretold;
use crate::verdicts::Verdicts;
use agg_types::{Cond, Config, Event, Filter, Key, LentWhat, NoMemory};
use book_frame::seats;
use book_frame::seats::has_free_seat;
use book_frame::standing::added_at;
use book_machine::{Machine, Ranked};
use book_rows::{BookRows, Drops, Sought, queries};
use fleet_model::Summed;
use peer_rows::Spot;
use standing_filters::{Flips, Keys, Verdict};
use std::alloc::Global;
use std::marker::Model;

/// What an event came to, beside the state that it leaves.
#[derive(Clone, Copy, Debug)]
pub struct Taken {
    /// Where the rows of a Put's key lay, for another book that takes the same events. There is
    /// none where the key had no rows or they weren't seen lately, or where the event isn't a Put
    /// that counts.
    pub spot: Option<Spot>,
    /// Whether it is an update that wasn't taken for want of room: of a key that its peer holds no
    /// row of, where it holds as many rows of the table as the table's size, or all peers together
    /// as many as the configuration's bound.
    pub dropped: bool,
    /// How many values of keys were read for the standing filters.
    pub read: u64,
}

impl Taken {
    /// No row was seen, nothing was dropped, and nothing was read.
    pub(crate) fn unseen() -> Taken
        ensures dropped { result.dropped ≡ false }
        ensures read { result.read ≡ 0 }
    {
        Taken {
            spot: None,
            dropped: false,
            read: 0,
        }
    }
}

/// The state of a fleet, one event at a time.
///
/// Contracts see what recomputing from the whole list of events gives: the configuration with the
/// filters that stand, the moment, the rows in force, the sessions and the seats. It is always
/// sound.
pub struct Book {
    pub(crate) machine: Machine,
    pub(crate) verdicts: Verdicts,
    // what wasn't taken for want of room
    pub(crate) drops: Drops,
}

// By hand, so that a crate that drops a book proves nothing of its parts.
impl Drop for Book {
    fn drop(self) {
        let Book {
            machine: _,
            verdicts: _,
            drops: _,
        } = self;
    }
}

impl Model for Book {
    ghost use Rattle.fleet_model.specs.State.{State};
    ghost use Rattle.book.specs.Verdicts.{IsBook};

    ghost Value = { State };

    ghost view = { λ b. b.machine };

    ghost invariant = { λ b. IsBook b.machine b.verdicts.standing };
}

impl Book {
    /// A book in which nothing has happened yet, at its opening moment, in ms, of a configuration
    /// that `Config::check` accepts.
    #[tactic(auto, unfolding(fleet_model::specs::State::IsStateOf))]
    pub fn new(alloc: Global, config: Config, moment: u64) -> Result<Book, NoMemory>
        requires checked { config_faults config ≡ [] }
        requires in_range { moment ≤ LAST_MOMENT }
        ensures opened { IfOk result (λ book. book ≡ opened config moment) }
        ensures stands { IfOk result (λ book. IsStateOf book config moment []) }
        ensures sound { IfOk result IsSound }
    {
        fleet_model::laws::nothing_happened();
        fleet_model::laws::states_are_sound();
        let machine = Machine::new(alloc, config, moment)?;
        let verdicts = Verdicts::new(&machine)?;
        let drops = Drops::new(alloc, &machine.rows)?;
        Ok(Book {
            machine,
            verdicts,
            drops,
        })
    }

    /// Takes one event. Afterwards the book is what recomputing from the whole list of events
    /// gives, this one at its end; an event that doesn't count changes nothing. After NoMemory the
    /// book is as it was; a `Leave`, and an event that doesn't count, never get it.
    pub fn step(&mut self, event: &Event) -> Result<(), NoMemory>
        ensures ok { OnOk result (self.new ≡ after self.old event.now) }
        ensures stands { OnOk result ((config : Config) (opening : ℕ) (events : List Event)
            → IsStateOf self.old config opening events
            → IsStateOf self.new config opening (events ++ event.now ∷ [])) }
        ensures err { OnErr result (self.new ≡ self.old) }
        ensures leaving { event.now.what ≡ Leave → IsOk result }
        ensures uncounted { counts_now self.old event.now ≡ false → IsOk result }
        ensures sound { IsSound self.new }
    {
        self.step_at(event, None)?;
        Ok(())
    }

    /// What `step` does, and tells which keys come into the filters' sets and which leave them, or
    /// that this isn't known: as where filters come or go, or a table is cleared whole. After
    /// NoMemory nothing more is told.
    pub fn step_telling(&mut self, event: &Event, flips: &mut Flips) -> Result<(), NoMemory>
        ensures ok { OnOk result (self.new ≡ after self.old event.now) }
        ensures stands { OnOk result ((config : Config) (opening : ℕ) (events : List Event)
            → IsStateOf self.old config opening events
            → IsStateOf self.new config opening (events ++ event.now ∷ [])) }
        ensures err { OnErr result (self.new ≡ self.old) }
        ensures leaving { event.now.what ≡ Leave → IsOk result }
        ensures uncounted { counts_now self.old event.now ≡ false → IsOk result }
        ensures sound { IsSound self.new }
        ensures flips { OnOk result
            (TellsAllIfKnown self.old (event.now ∷ []) flips.old flips.new) }
        ensures flips_err { OnErr result (flips.new ≡ flips.old) }
    {
        fleet_model::laws::state_after_one_more();
        self.apply_telling(
            event.seat,
            event.seq,
            LentWhat::of(&event.what),
            None,
            flips,
        )?;
        Ok(())
    }

    /// What `step` does, whatever the hint at where the rows of a Put's key lie, and how much was
    /// read for it. A moment up to which no filter's set changes reads nothing, nor does a clear.
    /// Any other event reads at most 505 values for each pair of a filter and a key that it
    /// concerns.
    pub fn step_at(&mut self, event: &Event, hint: Option<Spot>) -> Result<Taken, NoMemory>
        ensures ok { OnOk result (self.new ≡ after self.old event.now) }
        ensures stands { OnOk result ((config : Config) (opening : ℕ) (events : List Event)
            → IsStateOf self.old config opening events
            → IsStateOf self.new config opening (events ++ event.now ∷ [])) }
        ensures dropped { IfOk result (λ taken. taken.dropped ≡ is_dropped self.old event.now) }
        ensures err { OnErr result (self.new ≡ self.old) }
        ensures leaving { event.now.what ≡ Leave → IsOk result }
        ensures uncounted { counts_now self.old event.now ≡ false → IsOk result }
        ensures quiet { IfOk result
            (λ taken. IsQuietTo self.old event.now.what → taken.read ≡ 0) }
        ensures few { IfOk result (λ taken. IsFewFor self.old self.new event.now.what taken.read) }
        ensures sound { IsSound self.new }
    {
        fleet_model::laws::state_after_one_more();
        self.apply_at(event.seat, event.seq, &event.what, hint)
    }

    /// Whether fewer seats sit than may. Takes no memory.
    pub fn has_free_seat(&self) -> bool
        ensures { result ≡ nat_lt (length self.now.seats) MOST_SEATS }
    {
        has_free_seat(&self.machine.seats)
    }

    /// The configuration, with the filters that stand. Takes no memory.
    pub fn config(&self) -> &Config
        ensures value { result.now ≡ self.now.config }
        ensures sound { IsSound self.now }
    {
        &self.machine.config
    }

    /// Whether a filter of a name stands that was added, and isn't one of the configuration. Takes
    /// no memory.
    pub fn has_added(&self, name: &[u8]) -> bool
        ensures { result ≡ is_added self.now.configured self.now.config.filters name.now }
    {
        let machine = &self.machine;
        added_at(machine.config.filters.as_slice(), machine.configured, name).is_some()
    }

    /// The moment, in ms. Takes no memory.
    pub fn moment(&self) -> u64
        ensures value { result ≡ self.now.moment }
        ensures sound { IsSound self.now }
    {
        self.machine.moment
    }

    /// The seat that is the session in force of a peer, or none. Takes no memory.
    pub fn session_of(&self, peer: usize) -> Option<u64>
        ensures { result ≡ session_of self.now peer }
    {
        seats::session_of(&self.machine.sessions, peer)
    }

    /// The number of a seat's next event, or none where it doesn't sit. Takes no memory.
    pub fn next_seq(&self, seat: u64) -> Option<u64>
        ensures { result ≡ number_of self.now seat }
    {
        seats::number_of(&self.machine.seats, seat)
    }

    /// The summed row of a key, if some peer holds a row of it. Takes no memory.
    pub fn summed(&self, table: usize, key: &Key) -> Option<Summed>
        ensures { result ≡ summed self.now table key.now }
    {
        fleet_model::laws::keys::a_key_answers_by_its_rows();
        self.machine.summed(table, key)
    }

    /// The rows that the peers hold of a key, each as it stands now, by peer. Takes no memory.
    pub fn peer_rows(&self, table: usize, key: &Key) -> PeerRows<'_>
        ensures { result ≡ peer_rows self.now table key.now }
    {
        PeerRows::of(&self.machine, table, key)
    }

    /// Whether a filter holds a key now, and the first moment above the book's, in ms, at which
    /// that changes for this key, if only the clock goes on. The filter need not stand. Takes no
    /// memory.
    pub fn verdict(&self, filter: &Filter, key: &Key) -> Verdict
        requires { length filter.now.conds ≤ MOST_CONDS }
        ensures holds { result.holds ≡ holds self.now filter.now key.now self.now.moment }
        ensures next { IsKeyChange self.now filter.now key.now result.next }
    {
        foretold::verdict(&self.machine, filter, key)
    }

    /// The keys of a table with a row, in order.
    #[tactic(auto, unfolding(fleet_model::specs::Answers::keys_of))]
    pub fn keys(&self, alloc: Global, table: usize) -> Result<Vec<&Key>, NoMemory>
        ensures { IfOk result
            (λ keys. map (λ key. key.now) keys.items ≡ keys_of self.now table) }
    {
        let machine = &self.machine;
        queries::live_keys(alloc, &machine.rows, table, machine.moment)
    }

    /// How many keys of a table have a row. Takes no memory.
    pub fn used(&self, table: usize) -> u64
        ensures { result ≡ length (keys_of self.now table) }
    {
        self.machine.used(table) as u64
    }

    /// How many rows a peer holds of a table, in constant time. Takes no memory.
    pub fn rows_held(&self, table: usize, peer: usize) -> u64
        requires table_in { table < length self.now.config.tables }
        requires peer_in { peer < length self.now.config.peers }
        ensures { result ≡ held_rows self.now.rows table peer }
    {
        self.machine.rows_held(table, peer) as u64
    }

    /// How many updates of a peer were dropped since the opening for want of room: those
    /// of which `step_at` said so. A clear and a lost connection leave the count, and where it
    /// can't grow it stays. Takes no memory.
    ///
    /// No clause says which number that is.
    pub fn dropped(&self, table: usize, peer: usize) -> u64 {
        self.drops.of(table, peer)
    }

    /// The keys of a table with a row, each with its summed row, in order.
    pub fn rows(&self, alloc: Global, table: usize) -> Result<BookRows<'_>, NoMemory>
        ensures { IfOk result (λ rows. map shown_row rows ≡ listed self.now table) }
    {
        let rows = self.rows_where(alloc, table, &[])?;
        Ok(rows)
    }

    /// The keys of a table whose values meet all conditions, each with its summed row, in order.
    /// Takes memory for these keys alone, in which they are sorted.
    pub fn rows_where(
        &self,
        alloc: Global,
        table: usize,
        conds: &[Cond],
    ) -> Result<BookRows<'_>, NoMemory>
        ensures { IfOk result (λ rows. map shown_row rows
            ≡ listed_where self.now table conds.now) }
    {
        fleet_model::laws::keys::a_key_answers_by_its_rows();
        fleet_model::laws::keys::a_set_is_the_keys_that_hold();
        self.machine.meeting(alloc, table, conds)
    }

    /// The first keys of that listing, each with its summed row: so many at most, of those behind a
    /// key. They are kept while the rows are walked: takes memory for at most twice as many,
    /// however many meet the conditions.
    pub fn first_rows(
        &self,
        alloc: Global,
        table: usize,
        sought: Sought<'_>,
    ) -> Result<BookRows<'_>, NoMemory>
        ensures { IfOk result (λ rows. map shown_row rows
            ≡ first_behind sought.entry.most (option_copied sought.entry.after)
            (listed_where self.now table sought.entry.conds.now)) }
    {
        fleet_model::laws::keys::a_key_answers_by_its_rows();
        fleet_model::laws::keys::a_set_is_the_keys_that_hold();
        self.machine.first_meeting(alloc, table, sought)
    }

    /// The keys that a standing filter holds, in order. Takes no memory.
    pub fn filter_keys(&self, filter: usize) -> Keys<'_>
        requires { filter < length self.now.config.filters }
        ensures { result ≡ set_at self.now (filter_of self.now filter) self.now.moment }
    {
        self.verdicts.standing.keys(filter)
    }

    /// The ranked list at a position of the configuration, found by bounds on the values of keys,
    /// or in one walk of its table's rows where bounds lead to many keys. Takes memory for as many
    /// keys as it may have.
    pub fn top(&self, alloc: Global, rank: usize) -> Result<Ranked<'_>, NoMemory>
        requires { rank < length self.now.config.ranks }
        ensures { IfOk result (λ entries. entries ≡ ranked self.now (rank_of self.now rank)) }
    {
        self.machine.top(alloc, rank, usize::MAX)
    }

    /// The first so many keys of that list: who wants few of them pays for these alone, in memory
    /// and in keys that are looked at.
    pub fn top_of(&self, alloc: Global, rank: usize, most: usize) -> Result<Ranked<'_>, NoMemory>
        requires { rank < length self.now.config.ranks }
        ensures { IfOk result
            (λ entries. entries ≡ take most (ranked self.now (rank_of self.now rank))) }
    {
        self.machine.top(alloc, rank, most)
    }

    /// The first moment above the book's, in ms, at which a filter holds other keys than now, if
    /// only the clock goes on; none where it always holds the same. Takes no memory.
    pub fn next_change(&self, filter: usize) -> Option<u64>
        requires { filter < length self.now.config.filters }
        ensures { IsNextChange self.now (filter_of self.now filter) result }
    {
        standing_filters::laws::first_change_is_the_sets();
        self.verdicts.standing.next_change(filter)
    }

    /// The moment, in ms, of the next portion where the clock is to go on to `t`: behind the
    /// book's, and such that at most so many keys of each table are looked at for rows that end by
    /// then, and of each filter for verdicts that change, or only those of a single moment. Takes
    /// no memory.
    ///
    /// No clause counts the keys.
    pub fn few_by(&self, t: u64, most: usize) -> u64
        ensures by { result ≤ t }
        ensures behind { self.now.moment < t → self.now.moment < result }
    {
        let by = self.machine.rows.few_by(t, most);
        let by = self.verdicts.standing.few_by(by, most);
        by.max(self.machine.moment.saturating_add(1)).min(t)
    }
}

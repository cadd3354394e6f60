//! What the definitions promise. Each law stands on a function that does nothing: its clause is the
//! law, over every configuration, opening moment and list of events.

ghost use Rattle.std.specs.Prelude.{◌≡◌, ◌≢◌, ℕ, ◌+◌, ◌<◌, ◌≤◌, ◌^◌, Bool, not, true, false};
ghost use Rattle.std.specs.Prelude.{is_some, length, List, [], ◌∷◌, ◌++◌, Option, Some, filter};
ghost use Rattle.std.specs.Prelude.{fold, min, sum_by, take, ◌-◌};
ghost use Rattle.std.specs.BTreeMap.{insert_entry, is_at};
ghost use Rattle.std.specs.List.{AllByRecursion, IsDistinct, list_any};
ghost use Rattle.std.specs.List.Sorted.{IsStrictlySortedBy};
ghost use Rattle.std.specs.Map.{keys_of, lookup, remove_entry};
ghost use Rattle.std.specs.Str.{bytes_eq};
ghost use Rattle.agg_types.specs.Check.{config_faults};
ghost use Rattle.agg_types.specs.RowKey.{row_key_cmp};
ghost use Rattle.agg_types.specs.declared.column.Col.{Col};
ghost use Rattle.agg_types.specs.declared.config.Config.{Config};
ghost use Rattle.agg_types.specs.declared.config.Filter.{Filter};
ghost use Rattle.agg_types.specs.declared.config.Rank.{Rank};
ghost use Rattle.agg_types.specs.declared.event.Cell.{Cell};
ghost use Rattle.agg_types.specs.declared.event.Event.{Event};
ghost use Rattle.agg_types.specs.declared.event.What.TheVariants.{Open, DropFilter, Moment};
ghost use Rattle.agg_types.specs.declared.event.What.TheVariants.{Leave};
ghost use Rattle.agg_types.specs.declared.limits.TheConstants.{LAST_MOMENT, MOST_FILTERS};
ghost use Rattle.agg_types.specs.declared.row_key.RowKey.{RowKey};
ghost use Rattle.fleet_model.specs.Answers.{set_at, summed};
ghost use Rattle.fleet_model.specs.Answers as answers;
ghost use Rattle.fleet_model.specs.Filters.{added_by, first_named, is_added, is_drop};
ghost use Rattle.fleet_model.specs.History.{judged};
ghost use Rattle.fleet_model.specs.Normalized.{GivesElapsedBack, normalized_cells};
ghost use Rattle.fleet_model.specs.Laws.{AnswersAlike, AreLive, IsInForce, IsKeyList, IsOrdered};
ghost use Rattle.fleet_model.specs.Laws.{IsRanking, IsRankingStart, IsSetAt, IsSummedRow};
ghost use Rattle.fleet_model.specs.Laws.{IsWithinBound, IsWithinSizes, SaysNothing, opens_at};
ghost use Rattle.fleet_model.specs.Laws.{worth_at};
ghost use Rattle.fleet_model.specs.Machine.{after, counts_now, number_of, opened, session_of};
ghost use Rattle.fleet_model.specs.Next.{IsNextChange, IsNextChangeBy, longest_period};
ghost use Rattle.fleet_model.specs.Next.{table_flat_from};
ghost use Rattle.fleet_model.specs.Ranking.{ranked, ranking};
ghost use Rattle.fleet_model.specs.Rows.{counted_of};
ghost use Rattle.fleet_model.specs.Seats.{counts, number};
ghost use Rattle.fleet_model.specs.Sessions.{session};
ghost use Rattle.fleet_model.specs.Sound.{IsSound};
ghost use Rattle.fleet_model.specs.State.{IsStateOf, State, state_of};
ghost use Rattle.fleet_model.specs.Values.{cols_of, column_worth, same_place, value};
ghost use Rattle.fleet_model.specs.declared.arrival.Arrival.{Arrival};

pub mod changes;
pub mod keys;
pub mod rows;

/// No events leave the opened fleet: no rows, sessions and seats, at the opening moment.
pub fn nothing_happened()
    ensures { (config : Config) (opening : ℕ) → state_of config opening [] ≡ opened config opening }
{}

/// Recomputing from a list of events with one more at its end gives what that event makes of the
/// state that recomputing from the list gives. That holds for every kind of event, whether it
/// counts or not.
pub fn one_event_more()
    ensures { (config : Config) (opening : ℕ) (events : List Event) (e : Event)
        → state_of config opening (events ++ e ∷ []) ≡ after (state_of config opening events) e }
{}

/// A state that a list of events leaves becomes, by one more event, the one that the longer list
/// leaves.
pub fn state_after_one_more()
    ensures { (state : State) (config : Config) (opening : ℕ) (events : List Event) (e : Event)
        → IsStateOf state config opening events
        → IsStateOf (after state e) config opening (events ++ e ∷ []) }
{}

/// Recomputing from a whole list gives what the machine leaves that takes its events one by one.
pub fn step_by_step()
    ensures { (config : Config) (opening : ℕ) (events : List Event)
        → state_of config opening events ≡ fold after (opened config opening) events }
{}

/// An event that doesn't count changes nothing.
pub fn uncounted_events_change_nothing()
    ensures { (config : Config) (opening : ℕ) (events : List Event) (e : Event)
        → counts_now (state_of config opening events) e ≡ false
        → state_of config opening (events ++ e ∷ []) ≡ state_of config opening events }
{}

/// Whether an event counts after a list is said of the list: by the events in it that counted.
pub fn counting_is_of_the_list()
    ensures { (config : Config) (opening : ℕ) (events : List Event) (e : Event)
        → counts_now (state_of config opening events) e
        ≡ counts config (counted_of (judged config opening events)) e }
{}

/// Over events among which none that counts drops a filter, those that were active stay. Behind
/// them comes the first added one of each name that none of these has, while fewer are active than
/// may be.
pub fn filters_are_the_first_of_each_name()
    ensures { (config : Config) (opening : ℕ) (events later some : List Event)
        → counted_of (judged config opening (events ++ later))
        ≡ counted_of (judged config opening events) ++ some
        → list_any (λ e. is_drop e.what) some ≡ false
        → let before = (state_of config opening events).config.filters in
        (state_of config opening (events ++ later)).config.filters
        ≡ before ++ take (MOST_FILTERS - length before) (first_named before (added_by some)) }
{}

/// The configured filters stand first, whatever happens. A drop takes the added filter of its name
/// away and no other, and its place is free again.
pub fn a_drop_takes_one_added_filter()
    ensures configured { (config : Config) (opening : ℕ) (events : List Event)
        → take (length config.filters) (state_of config opening events).config.filters
        ≡ config.filters }
    ensures gone { (state : State) (e : Event) (name : List ℕ) → IsSound state
        → counts_now state e ≡ true → e.what ≡ DropFilter name
        → is_added (after state e).configured (after state e).config.filters name ≡ false }
    ensures others { (state : State) (e : Event) (name : List ℕ) → e.what ≡ DropFilter name
        → filter (λ f. not (bytes_eq f.name name)) (after state e).config.filters
        ≡ filter (λ f. not (bytes_eq f.name name)) state.config.filters }
    ensures freed { (state : State) (e : Event) (name : List ℕ) → counts_now state e ≡ true
        → e.what ≡ DropFilter name → is_added state.configured state.config.filters name ≡ true
        → length (after state e).config.filters + 1 ≡ length state.config.filters }
{}

/// What a state says of a seat is the number of its next event, which is how many of its events
/// counted. What it says of a peer is the seat that last opened it, if that seat still sits.
pub fn seats_and_sessions_are_found()
    ensures numbers { (config : Config) (opening : ℕ) (events : List Event) (seat : ℕ)
        → number_of (state_of config opening events) seat
        ≡ number (counted_of (judged config opening events)) seat }
    ensures sessions { (config : Config) (opening : ℕ) (events : List Event) (peer : ℕ)
        → peer < length config.peers
        → session_of (state_of config opening events) peer
        ≡ session (counted_of (judged config opening events)) peer }
{}

/// What a list of events leaves is in order: rows strictly by place, sessions by peer and seats by
/// number.
pub fn states_are_ordered()
    ensures { (config : Config) (opening : ℕ) (events : List Event)
        → IsOrdered (state_of config opening events) }
{}

/// At most one row is in force of a peer, table and key: in every state that is in order.
pub fn one_row_of_a_place()
    ensures { (state : State) → IsOrdered state → IsDistinct same_place (keys_of state.rows) }
{}

/// A row is in force exactly where three things hold. Some event put it, as a Put of its peer's
/// session in force with room at that event's place in the list. It lives at the last moment. No
/// later event put another row at its place or cleared it, each judged at its own place in the
/// list.
pub fn rows_in_force_are_exact()
    ensures put { (config : Config) (opening : ℕ) (events : List Event) (row : RowKey × Arrival)
        → lookup (is_at (row_key_cmp row.0)) (state_of config opening events).rows ≡ Some row.1
        → IsInForce config opening events row }
    ensures found { (config : Config) (opening : ℕ) (events : List Event) (row : RowKey × Arrival)
        → IsInForce config opening events row
        → lookup (is_at (row_key_cmp row.0)) (state_of config opening events).rows ≡ Some row.1 }
{}

/// Each row in force lives at the last moment.
pub fn rows_in_force_live()
    ensures { (config : Config) (opening : ℕ) (events : List Event)
        → AreLive (state_of config opening events) }
{}

/// A peer never holds more rows of a table than the table's size, nor do all peers together hold
/// more than the configuration's bound, if it has one.
pub fn sizes_hold()
    ensures sizes { (config : Config) (opening : ℕ) (events : List Event)
        → IsWithinSizes (state_of config opening events) }
    ensures bound { (config : Config) (opening : ℕ) (events : List Event)
        → IsWithinBound (state_of config opening events) }
{}

/// Some events change no summed row, set or ranked list: a moment that isn't later, a row of a seat
/// that isn't its peer's session in force, and a row that has no room. Nor does a filter that
/// isn't taken, or one to be dropped that no event added.
pub fn some_events_say_nothing()
    ensures { (state : State) (e : Event)
        → AreLive state → SaysNothing state e.seat e.what → AnswersAlike state (after state e) }
{}

/// A lost session keeps its rows: a seat that leaves touches none, and changes no answer.
pub fn lost_sessions_keep_rows()
    ensures { (state : State) (e : Event) → e.what ≡ Leave → AnswersAlike state (after state e) }
{}

/// A seat becomes the session in force of a peer by opening it, and in no other way.
pub fn in_force_by_opening()
    ensures { (config : Config) (opening : ℕ) (events later : List Event) (peer seat : ℕ)
        → list_any (opens_at seat peer) later ≡ false
        → session_of (state_of config opening events) peer ≢ Some seat
        → session_of (state_of config opening (events ++ later)) peer ≢ Some seat }
{}

/// A session never comes back once another seat opened its peer, unless its own seat opens the peer
/// again.
pub fn older_sessions_stay_out()
    ensures { (config : Config) (opening : ℕ) (events : List Event) (e : Event)
        (later : List Event) (peer seat : ℕ) → counts_now (state_of config opening events) e ≡ true
        → e.what ≡ Open peer → e.seat ≢ seat → list_any (opens_at seat peer) later ≡ false
        → session_of (state_of config opening ((events ++ e ∷ []) ++ later)) peer ≢ Some seat }
{}

/// The summed row of a key is none exactly where no row of it lives. Else it has how many do, the
/// most ms that one of them has left, or none where one never ends, and the value of each column.
pub fn sums_are_exact()
    ensures { (state : State) (table : ℕ) (key : List ℕ)
        → IsSummedRow state table key (summed state table key) }
{}

/// A key's value of a column never rises by the clock alone.
pub fn values_never_rise()
    ensures { (cols : List (Col × ℕ)) (state : State) (table : ℕ) (key : List ℕ) (col : Col)
        (t later : ℕ) → t ≤ later
        → value cols state.rows table key col later ≤ value cols state.rows table key col t }
{}

/// Sets and values at a moment to come are the same before and after an earlier moment has come:
/// what is foreseen by the clock alone comes true.
pub fn the_clock_alone()
    ensures sets { (state : State) (e : Event) (told : ℕ) → e.what ≡ Moment told
        → (filtering : Filter) (t : ℕ) → state.moment ≤ t → told ≤ t
        → set_at (after state e) filtering t ≡ set_at state filtering t }
    ensures values { (state : State) (e : Event) (told : ℕ) → e.what ≡ Moment told
        → (cols : List (Col × ℕ)) (table : ℕ) (key : List ℕ) (col : Col) (t : ℕ)
        → state.moment ≤ t → told ≤ t
        → value cols (after state e).rows table key col t ≡ value cols state.rows table key col t }
{}

/// The keys of a table are exactly those of which a row lives, each once, in the order of their
/// bytes.
pub fn keys_are_exact()
    ensures { (state : State) (table : ℕ)
        → IsOrdered state → IsKeyList state table (answers.keys_of state table) }
{}

/// A filter's set at a moment is exactly the keys with a row that lives then and for which each of
/// its conditions holds, each once, in the order of their bytes. There is no other such list.
pub fn sets_are_exact()
    ensures is_one { (state : State) (filtering : Filter) (t : ℕ)
        → IsOrdered state → IsSetAt state filtering t (set_at state filtering t) }
    ensures only { (state : State) (filtering : Filter) (t : ℕ) (keys others : List (List ℕ))
        → IsSetAt state filtering t keys → IsSetAt state filtering t others → keys ≡ others }
{}

/// The ranking of a table has each key with a row once, with its value: a larger value before a
/// smaller one, and of equal values the smaller key first. There is no other such list.
pub fn rankings_are_exact()
    ensures is_one { (state : State) (table : ℕ) (col : Col)
        → IsOrdered state → IsRanking state table col (ranking state table col) }
    ensures only { (state : State) (table : ℕ) (col : Col) (entries others : List (List ℕ × ℕ))
        → IsRanking state table col entries → IsRanking state table col others → entries ≡ others }
{}

/// A list of keys with a row, each with its value, is the ranking's beginning if it is in order and
/// every other key with a row stands behind it. So it is a ranked list, if it has as many as that
/// asks, or all.
pub fn a_ranking_begins_so()
    ensures start { (state : State) (table : ℕ) (col : Col) (entries : List (List ℕ × ℕ))
        → IsOrdered state
        → IsRankingStart state table col entries
        → entries ≡ take (length entries) (ranking state table col) }
    ensures whole { (state : State) (rank : Rank) (entries : List (List ℕ × ℕ)) → IsOrdered state
        → IsRankingStart state rank.table rank.col entries
        → length entries ≡ min rank.n (length (answers.keys_of state rank.table))
        → entries ≡ ranked state rank }
{}

/// Each key of a table with a row has a summed row.
pub fn listed_keys_have_sums()
    ensures { (state : State) (table : ℕ)
        → AllByRecursion (λ key. is_some (summed state table key) ≡ true)
        (answers.keys_of state table) }
{}

/// From the moment from which each row of a table has ended, or its rates are 0, the clock changes
/// no set of its filters.
pub fn sets_stay_once_flat()
    ensures { (state : State) (filtering : Filter) (t later : ℕ)
        → table_flat_from state filtering.table ≤ t → t ≤ later
        → set_at state filtering later ≡ set_at state filtering t }
{}

/// A next change that was looked for up to such a moment is the next change; where none was found
/// up to then, there is none.
pub fn next_change_comes_before_flat()
    ensures { (state : State) (filtering : Filter) (last : ℕ) (next : Option ℕ)
        → table_flat_from state filtering.table ≤ last → IsNextChangeBy state filtering last next
        → IsNextChange state filtering next }
{}

/// That moment has 64 bits, as moments and lives are small: in every sound state, and where the
/// opening moment is at most the last and periods are below 2^32.
pub fn sets_are_flat_in_time()
    ensures sound { (state : State) (table : ℕ) → IsSound state
        → table_flat_from state table < 2 ^ 64 }
    ensures listed { (config : Config) (opening : ℕ) (events : List Event) (table : ℕ)
        → opening ≤ LAST_MOMENT → longest_period (cols_of config.tables table) < 2 ^ 32
        → table_flat_from (state_of config opening events) table < 2 ^ 64 }
{}

/// A filter's next change is one moment, or none.
pub fn next_change_is_one()
    ensures { (state : State) (filtering : Filter) (one other : Option ℕ)
        → IsNextChange state filtering one → IsNextChange state filtering other → one ≡ other }
{}

/// A sum over rows in order as rows come and go: with one more, without one, and without those that
/// fail a test. So running sums of a key's values need look at no other row.
pub fn sums_follow_rows()
    ensures put { (f : RowKey × Arrival → ℕ) (rows : List (RowKey × Arrival)) (place : RowKey)
        (row : Arrival) → IsStrictlySortedBy row_key_cmp (keys_of rows)
        → sum_by f (insert_entry row_key_cmp rows place row) + worth_at f rows place
        ≡ sum_by f rows + f (place, row) }
    ensures taken { (f : RowKey × Arrival → ℕ) (rows : List (RowKey × Arrival)) (place : RowKey)
        → sum_by f (remove_entry (is_at (row_key_cmp place)) rows) + worth_at f rows place
        ≡ sum_by f rows }
    ensures split { (f : RowKey × Arrival → ℕ) (p : RowKey × Arrival → Bool)
        (rows : List (RowKey × Arrival))
        → sum_by f (filter p rows) + sum_by f (filter (λ row. not (p row)) rows) ≡ sum_by f rows }
{}

/// What a row keeps of its cells says the same as they did at every later moment. It is one form:
/// the elapsed time of a rate is at most two periods and 1 ms, so the moment from which the rate is
/// 0 gives it back.
pub fn normalized_cells_say_the_same()
    ensures worth { (cols : List (Col × ℕ)) (cells : List Cell) (col : Col) (since : ℕ)
        → column_worth col since cols (normalized_cells cols cells)
        ≡ column_worth col since cols cells }
    ensures once { (cols : List (Col × ℕ)) (cells : List Cell)
        → normalized_cells cols (normalized_cells cols cells) ≡ normalized_cells cols cells }
    ensures from_zero { (period elapsed cur prev t : ℕ)
        → GivesElapsedBack period elapsed cur prev t }
{}

/// A checked configuration opened at a moment up to the last is sound, and every event keeps a
/// state so: so what any list of events leaves is sound.
pub fn states_are_sound()
    ensures opened { (config : Config) (opening : ℕ) → config_faults config ≡ []
        → opening ≤ LAST_MOMENT
        → IsSound (opened config opening) }
    ensures kept { (state : State) (e : Event) → IsSound state → IsSound (after state e) }
    ensures whole { (config : Config) (opening : ℕ) (events : List Event)
        → config_faults config ≡ [] → opening ≤ LAST_MOMENT
        → IsSound (state_of config opening events) }
{}

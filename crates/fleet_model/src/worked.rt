//! Small runs, each with what it leaves: the definitions computed on them, as laws of functions
//! that do nothing.

ghost use Rattle.std.specs.Prelude.{◌≡◌, ℕ, List, [], ◌∷◌, ◌++◌, Option, None, Some, codes};
ghost use Rattle.agg_types.specs.declared.column.Col.TheVariants.{Gpc0, HttpReqRate};
ghost use Rattle.agg_types.specs.declared.config.Op.TheVariants.{Eq, Ge, Gt};
ghost use Rattle.agg_types.specs.declared.event.Cell.TheVariants.{Count, Rate};
ghost use Rattle.agg_types.specs.declared.event.Select.TheVariants.{All, Conds};
ghost use Rattle.agg_types.specs.declared.event.What.TheVariants.{Sit, Open, Clear, AddFilter};
ghost use Rattle.agg_types.specs.declared.event.What.TheVariants.{DropFilter, Moment, Leave};
ghost use Rattle.fleet_model.specs.Answers.{filter_of, set_at};
ghost use Rattle.fleet_model.specs.Machine.{session_of};
ghost use Rattle.fleet_model.specs.Ranking.{ranked, ranking};
ghost use Rattle.fleet_model.specs.Worked.{fleet_of, ip, filter_on, row, left_by, view_of_table};
ghost use Rattle.fleet_model.specs.Worked.{bounded, sums_to, three_rows};
ghost use Rattle.fleet_model.specs.Worked.{joined, full_table, reconnected, lives_over};
ghost use Rattle.fleet_model.specs.Worked.{cleared_on_sums, summed_rates, one_rate, slow_rate};
ghost use Rattle.fleet_model.specs.Worked.{added_late, equal_keys, falling_keys, first_two};

/// A table holds two rows of a peer. A third key isn't taken, until the row that lives 100 ms has
/// ended.
pub fn size_limit()
    ensures full { view_of_table (left_by (fleet_of 2 Gpc0 0 []) full_table)
        ≡ (ip 1, sums_to Gpc0 1 (Some 100) 1) ∷ (ip 2, sums_to Gpc0 1 (Some 60000) 2) ∷ [] }
    ensures ended { view_of_table
        (left_by (fleet_of 2 Gpc0 0 []) (full_table ++ (0, Moment 100) ∷ []))
        ≡ (ip 2, sums_to Gpc0 1 (Some 59900) 2) ∷ [] }
    ensures taken { view_of_table
        (left_by (fleet_of 2 Gpc0 0 [])
        (full_table ++ (0, Moment 100) ∷ (1, row 0 3 (Some 60000) (Count 3)) ∷ []))
        ≡ (ip 2, sums_to Gpc0 1 (Some 59900) 2) ∷ (ip 3, sums_to Gpc0 1 (Some 60000) 3) ∷ [] }
{}

/// All peers together may hold three rows. A key of which another peer alone holds a row isn't
/// taken, one that its own peer holds is; and a new one is once the row that lives 100 ms has
/// ended.
pub fn row_bound()
    ensures full { view_of_table
        (left_by (bounded 3 (fleet_of 100 Gpc0 0 []))
        (three_rows ++ (2, row 1 1 None (Count 9)) ∷ []))
        ≡ (ip 1, sums_to Gpc0 1 (Some 100) 1) ∷ (ip 2, sums_to Gpc0 2 None 5) ∷ [] }
    ensures held { view_of_table
        (left_by (bounded 3 (fleet_of 100 Gpc0 0 []))
        (three_rows ++ (2, row 1 2 None (Count 9)) ∷ []))
        ≡ (ip 1, sums_to Gpc0 1 (Some 100) 1) ∷ (ip 2, sums_to Gpc0 2 None 11) ∷ [] }
    ensures taken { view_of_table
        (left_by (bounded 3 (fleet_of 100 Gpc0 0 []))
        (three_rows ++ (0, Moment 100) ∷ (2, row 1 3 None (Count 9)) ∷ []))
        ≡ (ip 2, sums_to Gpc0 2 None 5) ∷ (ip 3, sums_to Gpc0 1 None 9) ∷ [] }
{}

/// A peer that connects again is heard over its newer session: what the older one still says isn't
/// taken. Rows of a lost session stay, and no older session comes back.
pub fn reconnect()
    ensures lost { view_of_table
        (left_by (fleet_of 100 Gpc0 0 [])
        (joined 1 0 ++ (1, row 0 1 None (Count 5)) ∷ (1, Leave) ∷ []))
        ≡ (ip 1, sums_to Gpc0 1 None 5) ∷ [] }
    ensures replaced { view_of_table (left_by (fleet_of 100 Gpc0 0 []) reconnected)
        ≡ (ip 1, sums_to Gpc0 1 None 7) ∷ [] }
    ensures newer { session_of (left_by (fleet_of 100 Gpc0 0 []) reconnected) 0 ≡ Some 3 }
    ensures gone { session_of (left_by (fleet_of 100 Gpc0 0 []) (reconnected ++ (3, Leave) ∷ [])) 0
        ≡ None }
    ensures stay { view_of_table (left_by (fleet_of 100 Gpc0 0 []) (reconnected ++ (3, Leave) ∷ []))
        ≡ (ip 1, sums_to Gpc0 1 None 7) ∷ [] }
{}

/// A row is there until the moment at which its life is over; a row of life 0 takes the older one
/// away.
pub fn lives()
    ensures last { view_of_table
        (left_by (fleet_of 100 Gpc0 0 []) (lives_over ++ (0, Moment 1499) ∷ []))
        ≡ (ip 1, sums_to Gpc0 1 (Some 1) 5) ∷ [] }
    ensures over { view_of_table
        (left_by (fleet_of 100 Gpc0 0 []) (lives_over ++ (0, Moment 1500) ∷ []))
        ≡ [] }
    ensures away { view_of_table
        (left_by (fleet_of 100 Gpc0 0 []) (lives_over ++ (1, row 0 1 (Some 0) (Count 6)) ∷ []))
        ≡ [] }
{}

/// A clear judges a key by the fleet's sums, and takes the rows of all peers.
pub fn clear_on_sums()
    ensures sums { view_of_table (left_by (fleet_of 100 Gpc0 0 []) cleared_on_sums)
        ≡ (ip 1, sums_to Gpc0 2 None 11) ∷ (ip 2, sums_to Gpc0 1 None 9) ∷ [] }
    ensures cleared { view_of_table
        (left_by (fleet_of 100 Gpc0 0 [])
        (cleared_on_sums ++
        (0, Clear 0 (Conds ((record { col = Gpc0; op = Ge; bound = 10 }) ∷ []))) ∷ []))
        ≡ (ip 2, sums_to Gpc0 1 None 9) ∷ [] }
    ensures all { view_of_table
        (left_by (fleet_of 100 Gpc0 0 []) (cleared_on_sums ++ (0, Clear 0 All) ∷ [])) ≡ [] }
{}

/// A key's rate is the sum of its peers' rates, each rounded down by itself.
pub fn fleet_rate()
    ensures at_0 { view_of_table (left_by (fleet_of 100 HttpReqRate 1000 []) summed_rates)
        ≡ (ip 1, sums_to HttpReqRate 2 None 4) ∷ [] }
    ensures at_1 { view_of_table
        (left_by (fleet_of 100 HttpReqRate 1000 []) (summed_rates ++ (0, Moment 1) ∷ []))
        ≡ (ip 1, sums_to HttpReqRate 2 None 3) ∷ [] }
    ensures at_166 { view_of_table
        (left_by (fleet_of 100 HttpReqRate 1000 []) (summed_rates ++ (0, Moment 166) ∷ []))
        ≡ (ip 1, sums_to HttpReqRate 2 None 3) ∷ [] }
    ensures at_167 { view_of_table
        (left_by (fleet_of 100 HttpReqRate 1000 []) (summed_rates ++ (0, Moment 167) ∷ []))
        ≡ (ip 1, sums_to HttpReqRate 2 None 2) ∷ [] }
    ensures held { set_at (left_by (fleet_of 100 HttpReqRate 1000 []) summed_rates)
        (filter_on HttpReqRate Ge 3) 166 ≡ ip 1 ∷ [] }
    ensures dropped { set_at (left_by (fleet_of 100 HttpReqRate 1000 []) summed_rates)
        (filter_on HttpReqRate Ge 3) 167 ≡ [] }
{}

/// A key passes through a filter's set while its rate falls, also between two moments that are
/// counted.
pub fn passing_set()
    ensures before { set_at (left_by (fleet_of 100 HttpReqRate 1000 []) one_rate)
        (filter_on HttpReqRate Eq 2) 0 ≡ [] }
    ensures first { set_at (left_by (fleet_of 100 HttpReqRate 1000 []) one_rate)
        (filter_on HttpReqRate Eq 2) 1 ≡ ip 1 ∷ [] }
    ensures last { set_at (left_by (fleet_of 100 HttpReqRate 1000 []) one_rate)
        (filter_on HttpReqRate Eq 2) 333 ≡ ip 1 ∷ [] }
    ensures behind { set_at (left_by (fleet_of 100 HttpReqRate 1000 []) one_rate)
        (filter_on HttpReqRate Eq 2) 334 ≡ [] }
    ensures jumped { set_at
        (left_by (fleet_of 100 HttpReqRate 1000 []) (one_rate ++ (0, Moment 334) ∷ []))
        (filter_on HttpReqRate Eq 2) 334 ≡ [] }
{}

/// An added filter stands behind the configured ones; one whose name stands already isn't taken.
pub fn added_filters()
    ensures taken { (left_by (fleet_of 100 Gpc0 0 [])
        ((0, Sit) ∷ (0, AddFilter (filter_on Gpc0 Ge 1)) ∷ [])).config.filters
        ≡ filter_on Gpc0 Ge 1 ∷ [] }
    ensures twice { (left_by (fleet_of 100 Gpc0 0 (filter_on Gpc0 Eq 5 ∷ []))
        ((0, Sit) ∷ (0, AddFilter (filter_on Gpc0 Ge 1)) ∷ [])).config.filters
        ≡ filter_on Gpc0 Eq 5 ∷ [] }
{}

/// A filter that was added is gone once it is dropped, and another one of its name may be added. A
/// configured one stays.
pub fn dropped_filters()
    ensures gone { (left_by (fleet_of 100 Gpc0 0 [])
        ((0, Sit) ∷ (0, AddFilter (filter_on Gpc0 Ge 1))
        ∷ (0, DropFilter (codes "f")) ∷ [])).config.filters ≡ [] }
    ensures again { (left_by (fleet_of 100 Gpc0 0 [])
        ((0, Sit) ∷ (0, AddFilter (filter_on Gpc0 Ge 1)) ∷ (0, DropFilter (codes "f"))
        ∷ (0, AddFilter (filter_on Gpc0 Ge 7)) ∷ [])).config.filters ≡ filter_on Gpc0 Ge 7 ∷ [] }
    ensures other { (left_by (fleet_of 100 Gpc0 0 [])
        ((0, Sit) ∷ (0, AddFilter (filter_on Gpc0 Ge 1))
        ∷ (0, DropFilter (codes "g")) ∷ [])).config.filters ≡ filter_on Gpc0 Ge 1 ∷ [] }
    ensures configured { (left_by (fleet_of 100 Gpc0 0 (filter_on Gpc0 Eq 5 ∷ []))
        ((0, Sit) ∷ (0, DropFilter (codes "f")) ∷ [])).config.filters
        ≡ filter_on Gpc0 Eq 5 ∷ [] }
{}

/// An added filter holds at once what a configured one would. A second one of its name changes
/// nothing.
pub fn added_sets()
    ensures added { set_at (left_by (fleet_of 100 Gpc0 0 []) added_late)
        (filter_of (left_by (fleet_of 100 Gpc0 0 []) added_late) 0) 0 ≡ ip 1 ∷ [] }
    ensures configured { set_at
        (left_by (fleet_of 100 Gpc0 0 (filter_on Gpc0 Ge 5 ∷ [])) added_late)
        (filter_of (left_by (fleet_of 100 Gpc0 0 (filter_on Gpc0 Ge 5 ∷ [])) added_late) 0) 0
        ≡ ip 1 ∷ [] }
    ensures once { (left_by (fleet_of 100 Gpc0 0 [])
        (added_late ++ (0, AddFilter (filter_on Gpc0 Ge 1)) ∷ [])).config.filters
        ≡ filter_on Gpc0 Ge 5 ∷ [] }
{}

/// A filter's set follows a rate as it falls, at the very ms at which it reaches the bound.
pub fn rate_values()
    ensures held { set_at (left_by (fleet_of 100 HttpReqRate 10000 []) slow_rate)
        (filter_on HttpReqRate Gt 100) 2900 ≡ ip 1 ∷ [] }
    ensures dropped { set_at (left_by (fleet_of 100 HttpReqRate 10000 []) slow_rate)
        (filter_on HttpReqRate Gt 100) 2901 ≡ [] }
{}

/// A ranked list has its first keys by value, of equal values the smaller key first; rates count as
/// they are now.
pub fn ranked_keys()
    ensures ties { ranked (left_by (fleet_of 100 Gpc0 0 []) equal_keys) (first_two Gpc0)
        ≡ (ip 1, 5) ∷ (ip 2, 5) ∷ [] }
    ensures rates { ranked (left_by (fleet_of 100 HttpReqRate 1000 []) falling_keys)
        (first_two HttpReqRate) ≡ (ip 1, 5) ∷ (ip 2, 3) ∷ [] }
    ensures whole { ranking (left_by (fleet_of 100 HttpReqRate 1000 []) falling_keys) 0 HttpReqRate
        ≡ (ip 1, 5) ∷ (ip 2, 3) ∷ (ip 3, 1) ∷ [] }
{}

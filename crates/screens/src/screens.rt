ghost use Rattle.std.specs.Prelude.{◌≡◌, ◌<◌, ◌≤◌, ℕ, List, false, length, IfNone, IfSome, IsTrue};
ghost use Rattle.std.specs.List.{position};
ghost use Rattle.agg_types.specs.Col.{same_col};
ghost use Rattle.agg_types.specs.Op.{op_holds};
ghost use Rattle.agg_types.specs.declared.column.Col.{Col as ColName};
ghost use Rattle.screens.specs.Asked.{AreBelow, AreLower, AreScreened, EndsAt, Fail, IsBelow};
ghost use Rattle.screens.specs.Asked.{IsScreen, asked_at, nothing, place_in};

use agg_types::{Col, Cond, Filter, Op};
use peer_rows::OfKey;

/// Of so many columns it is said what a key must be worth.
const COLS: usize = 8;

/// Nothing is asked of a column.
const NOTHING: u64 = u64::MAX;

/// For each of the first columns of a table, what a key must be worth in it at least for a filter
/// of the table to hold it.
#[derive(Clone, Copy, Debug)]
pub struct Screens {
    least: [u64; COLS],
    // Nothing is asked of the columns from this one on.
    end: usize,
}

/// What a filter asks of the column at a place.
#[derive(Clone, Copy)]
struct Asked {
    place: usize,
    least: u64,
}

impl Screens {
    /// Those of the filters of a table, if each of them asks for something.
    #[inline(never)]
    pub fn of(cols: &[(Col, u32)], filters: &[Filter], table: usize) -> Option<Screens>
        ensures { IfSome result (IsScreen cols.now filters.now table) }
    {
        let mut screens = Screens {
            least: [NOTHING; COLS],
            end: 0,
        };
        if screens.ask_each(cols, filters, table) {
            Some(screens)
        } else {
            None
        }
    }

    /// Whether rows of one key are worth less than is asked, in each column.
    #[inline(always)]
    pub fn stop(&self, rows: &OfKey<'_>) -> bool
        requires { EndsAt self.now.least self.now.end }
        ensures { IsTrue result → AreBelow self.now.least rows.now }
    {
        for place in 0..self.end {
            if !self.stops_at(rows, place) {
                return false;
            }
        }
        true
    }

    // Whether rows of one key are worth less than is asked of the column at a place.
    #[inline(always)]
    fn stops_at(&self, rows: &OfKey<'_>, place: usize) -> bool
        ensures { IsTrue result → IsBelow self.now.least rows.now place }
    {
        let Some(least) = self.least.get(place) else {
            return true;
        };
        if *least == NOTHING {
            return true;
        }
        match rows.most(place) {
            None => false,
            Some(most) => most < u128::from(*least),
        }
    }

    // Asks for what some filters of a table ask for. False where one asks for nothing.
    fn ask_each(&mut self, cols: &[(Col, u32)], filters: &[Filter], table: usize) -> bool
        requires { length self.old.least ≡ 8 }
        ensures length { length self.new.least ≡ 8 }
        ensures lower { AreLower self.old.least self.new.least }
        ensures end { EndsAt self.old.least self.old.end → EndsAt self.new.least self.new.end }
        ensures screened { IsTrue result
            → AreScreened self.new.least cols.now table filters.now }
    {
        let [filter, rest @ ..] = filters else {
            return true;
        };
        if filter.table == table {
            let Some(asked) = asked_by(cols, filter.conds.as_slice()) else {
                return false;
            };
            self.ask(asked);
        }
        self.ask_each(cols, rest, table)
    }

    // Asks for what a filter asks for, too.
    fn ask(&mut self, asked: Asked)
        requires eight { length self.old.least ≡ 8 }
        requires place { asked.place < 8 }
        ensures length { length self.new.least ≡ 8 }
        ensures lower { AreLower self.old.least self.new.least }
        ensures here { asked_at self.new.least asked.place ≤ asked.least }
        ensures end { EndsAt self.old.least self.old.end → EndsAt self.new.least self.new.end }
    {
        self.least[asked.place] = self.least[asked.place].min(asked.least);
        self.end = self.end.max(asked.place + 1);
    }
}

// What conditions ask of one of the first columns: the first that asks for anything.
fn asked_by(cols: &[(Col, u32)], conds: &[Cond]) -> Option<Asked>
    ensures place { IfSome result (λ asked. asked.place < 8) }
    ensures some { IfSome result (λ asked. asked.least < nothing) }
    ensures fail { IfSome result (λ asked. (value : ColName → ℕ)
        → ((col : ColName) → place_in cols.now col ≡ asked.place → value col < asked.least)
        → Fail conds.now value) }
{
    let [cond, rest @ ..] = conds else {
        return None;
    };
    if let Some(asked) = asked_of(cols, cond) {
        return Some(asked);
    }
    asked_by(cols, rest)
}

// The same of one condition.
fn asked_of(cols: &[(Col, u32)], cond: &Cond) -> Option<Asked>
    ensures place { IfSome result (λ asked. asked.place < 8) }
    ensures some { IfSome result (λ asked. asked.least < nothing) }
    ensures fails { IfSome result (λ asked. (value : ℕ) → value < asked.least
        → op_holds cond.now.op value cond.now.bound ≡ false) }
    ensures col { IfSome result (λ asked. place_in cols.now cond.now.col ≡ asked.place) }
{
    let least = least_for(cond.op, cond.bound)?;
    let place = stored_at(cols, cond.col)?;
    if place >= COLS || least == NOTHING {
        return None;
    }
    Some(Asked { place, least })
}

// Below which value a comparison by `gt`, `ge` or `eq` always fails. No other comparison does.
fn least_for(op: Op, bound: u64) -> Option<u64>
    ensures { IfSome result (λ least. (value : ℕ) → value < least
        → op_holds op value bound ≡ false) }
{
    match op {
        Op::Gt => bound.checked_add(1),
        Op::Ge | Op::Eq => Some(bound),
        Op::Lt | Op::Le | Op::Ne => None,
    }
}

// Where a table stores a column, if it does.
fn stored_at(cols: &[(Col, u32)], col: Col) -> Option<usize>
    ensures { result ≡ position (λ stored. same_col stored.0 col) cols.now }
{
    cols.iter().position(|stored| stored.0.id() == col.id())
}

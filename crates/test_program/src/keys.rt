//! What the log says of the keys of logged filters: rounds over a hub, worked out by hand.

ghost use Rattle.std.specs.Prelude.{◌≡◌, IfOk};

use crate::scene::Still;
use agg_types::{Cell, Cells, Col, Cond, Filter, Items, Key, Name, NoMemory, Op, What, Whats};
use anyhow::{Result, anyhow};
use collector_log::Noted;
use hub::{Hub, Lens, Naming, Opening, Pass};
use journal::{Heading, Journal};
use logged_keys::{LoggedKeys, Round};
use std::alloc::Global;
use std::io;
use std::sync::Wait;
use std::time::Clock;
use test_hub_calls::{lens, post, sit};
use test_support::config;

/// A filter that looks at one count twice, one that few of its keys meet, and one that isn't
/// logged. The log has them in another order than the filters.
const CONFIGURATION: &[u8] = b"name agg\npeer lb1\n\
table t type string len 8 size 1000 store gpc0,conn_cur\n\
filter hot t data.gpc0 ge 5 data.conn_cur lt 7 data.gpc0 lt 1000\n\
filter any t data.gpc0 ge 1\nfilter huge t data.gpc0 ge 500\nlog huge\nlog hot\n";

/// Rows that the peer puts: a key, and its count.
type Puts = &'static [(&'static [u8], u64)];

/// What is put between two looks. Two keys come in, one of which is quoted; the first leaves and
/// comes again, so its values are those of the last; nothing moves; a key comes into both sets.
const STEPS: [Puts; 4] = [
    &[(b"a", 5), (b"b=", 9), (b"c", 2)],
    &[(b"a", 2), (b"a", 7)],
    &[(b"a", 8), (b"c", 3)],
    &[(b"d", 600)],
];

/// How many keys come into the sets at once: of one filter more than are told, of the other few.
const MANY: u64 = 153;

const FEW: u64 = 3;

fn put(alloc: Global, key: &[u8], count: u64, life: Option<u64>) -> Result<What, NoMemory> {
    Ok(What::Put {
        peer: 0,
        table: 0,
        key: Key::copy(alloc, key)?,
        life,
        cells: Cells::copy(alloc, &[Cell::Count(count), Cell::Count(1)])?,
    })
}

// A batch in which the peer puts these rows, behind an event.
fn puts(alloc: Global, first: What, rows: &[(&[u8], u64)]) -> Result<Whats, NoMemory> {
    let mut whats = Whats::alone(alloc, first)?;
    for (key, count) in rows {
        whats.push(put(alloc, key, *count, None)?)?;
    }
    Ok(whats)
}

// A batch of a key that comes into the set of `hot`, and whose row ends at once.
fn gone(alloc: Global) -> Result<Whats, NoMemory> {
    let mut whats = Whats::alone(alloc, put(alloc, b"e", 9, None)?)?;
    whats.push(put(alloc, b"e", 9, Some(0))?)?;
    Ok(whats)
}

// A batch of many keys that come into the set of one filter, and few that come into both sets.
fn many(alloc: Global) -> Result<Whats, NoMemory> {
    let mut whats = Whats::new(alloc);
    for number in 0..MANY {
        let count = if number < FEW { 700 } else { 5 };
        let key = [b'k', number as u8];
        whats.push(put(alloc, &key, count, None)?)?;
    }
    Ok(whats)
}

// A batch in which a filter is added.
fn added(alloc: Global) -> Result<Whats, NoMemory> {
    let conds: [Cond; 1] = [Cond {
        col: Col::Gpc0,
        op: Op::Ge,
        bound: 1,
    }];
    Whats::alone(
        alloc,
        What::AddFilter(Filter {
            name: Name::copy(alloc, b"more")?,
            table: 0,
            conds: Items::copy(alloc, &conds)?,
        }),
    )
}

/// Prints how many changes of each filter a round tells, and how many not.
fn print_counts(rt: &impl Print, round: &Round<'_>) -> io::Result<()> {
    for filter in 0..3 {
        let told = round
            .told
            .iter()
            .filter(|told| told.filter == filter)
            .count();
        println!(rt; "of filter {filter}: {told}")?;
    }
    for left in &round.left_out {
        let filter = left.filter;
        match left.count {
            None => println!(rt; "of filter {filter} it isn't known")?,
            Some(count) => println!(rt; "of filter {filter} not: {count}")?,
        }
    }
    Ok(())
}

/// What rounds stand on.
#[derive(Drop)]
struct Rounds<'h, 's, J: Naming, R: Wait + Drop> {
    still: &'s Still<R>,
    hub: &'h Hub<J, &'s Still<R>>,
}

impl<'h, 's, J: Naming, R: Print + Wait + Copy + AllocGlobal> Rounds<'h, 's, J, R> {
    // Posts a batch, and writes the lines of the round behind it, or how many there are.
    fn step(
        &self,
        pass: &mut Pass,
        lens: &mut Lens,
        keys: &mut LoggedKeys,
        batch: Whats,
        is_counted: bool,
    ) -> Result<()>
        requires pass { pass.old.seen.of ≡ self.now.hub.now.of }
        requires lens { lens.old.seen.of ≡ self.now.hub.now.of }
        ensures pass { IfOk result (λ done. pass.new.seen.of ≡ self.now.hub.now.of) }
        ensures lens { IfOk result (λ done. lens.new.seen.of ≡ self.now.hub.now.of) }
    {
        let receipt = post(&self.still.rt, self.still.rt.alloc(), self.hub, pass, batch)?;
        lens.learn(&receipt);
        tell(self.still, lens, keys, is_counted)
    }

    // Runs all rounds: before anything came, behind each step, and behind many keys at once, a key
    // whose row has ended, and a filter that was added.
    fn run(&self) -> Result<()> {
        let alloc = self.still.rt.alloc();
        let mut lens = lens(&self.still.rt, self.hub)?;
        let mut pass = sit(&self.still.rt, self.hub)?;
        let mut keys = LoggedKeys::new(alloc, self.hub.config())?;
        tell(self.still, &mut lens, &mut keys, false)?;
        for rows in STEPS {
            let batch = puts(alloc, What::Open(0), rows)?;
            self.step(&mut pass, &mut lens, &mut keys, batch, false)?;
        }
        self.step(&mut pass, &mut lens, &mut keys, gone(alloc)?, false)?;
        self.step(&mut pass, &mut lens, &mut keys, many(alloc)?, true)?;
        self.step(&mut pass, &mut lens, &mut keys, added(alloc)?, false)?;
        let batch = puts(alloc, What::Open(0), &[(b"a", 1)])?;
        self.step(&mut pass, &mut lens, &mut keys, batch, false)
    }
}

/// Looks, and writes the lines of the round, or prints how many there are of each filter.
fn tell<R: Print + Wait + Copy + AllocGlobal>(
    still: &Still<R>,
    lens: &mut Lens,
    keys: &mut LoggedKeys,
    is_counted: bool,
) -> Result<()>
    ensures { lens.new.seen.of ≡ lens.old.seen.of }
{
    println!(still.rt; "-- round")?;
    let alloc = still.rt.alloc();
    let Some(look) = lens.look() else {
        return Err(anyhow!("no look"));
    };
    let round = keys.round(&look)?;
    if is_counted {
        print_counts(&still.rt, &round)?;
        return Ok(());
    }
    let journal = Journal::new(alloc, Heading::Time);
    let noted = Noted {
        rt: still,
        journal: &journal,
    };
    round.note(alloc, look.book(), &noted);
    journal.write_out(still);
    Ok(())
}

/// The fleet, just opened.
pub fn opening(alloc: Global) -> Result<Opening> {
    let config = config(alloc, CONFIGURATION)?;
    Ok(Opening::new(alloc, config, 0)?)
}

/// Prints what each round tells.
pub fn show<J: Naming, R: Print + Wait + Copy + AllocGlobal>(
    still: &Still<R>,
    opening: Opening,
) -> Result<()>
    requires { opening.of ≡ J.book }
{
    println!(still.rt; "== logged keys")?;
    let alloc = still.rt.alloc();
    let hub = Hub::<J, &Still<R>>::new(alloc, still, opening, 1)?;
    let rounds = Rounds { still, hub: &hub };
    rounds.run()
}

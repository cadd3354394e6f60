//! What a lens shows.

ghost use Rattle.std.specs.Prelude.{◌≡◌};

use anyhow::{Result, anyhow, ensure};
use hub::Lens;
use std::fmt;
use std::fmt::{Display, Formatter, Write};

/// What a look shows of a fleet and of one seat.
#[derive(Clone, Copy, PartialEq)]
pub struct Shown {
    seat: u64,
    next: Option<u64>,
    keys: u64,
    filters: usize,
    moment: u64,
}

impl Display for Shown {
    fn fmt<W: Write>(&self, f: &mut Formatter<W>) -> fmt::Result {
        write!(
            f,
            "{} keys, {} filters, {} ms, seat {} goes on with {:?}",
            self.keys, self.filters, self.moment, self.seat, self.next
        )
    }
}

/// Looks. Takes no memory.
pub fn seen(lens: &mut Lens, seat: u64) -> Result<Shown>
    ensures { lens.new.seen.of ≡ lens.old.seen.of }
{
    let Some(look) = lens.look() else {
        return Err(anyhow!("no look"));
    };
    let book = look.book();
    Ok(Shown {
        seat,
        next: book.next_seq(seat),
        keys: book.used(0),
        filters: book.config().filters.len(),
        moment: book.moment(),
    })
}

impl Shown {
    /// Makes sure that a look shows the same now.
    pub fn stands(self, lens: &mut Lens) -> Result<()>
        ensures { lens.new.seen.of ≡ lens.old.seen.of }
    {
        ensure!(
            seen(lens, self.seat)? == self,
            "a refused call shows something"
        );
        Ok(())
    }
}

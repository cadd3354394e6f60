//! Memory that nobody uses, so that something is left where an allocation fails.

ghost use Rattle.std.specs.Prelude.{◌≡◌, true, false, IfOk};

use agg_types::NoMemory;
use std::alloc::Global;
use std::marker::Model;

/// How many bytes a whole reserve has. The allocator maps a block of so many by itself, beside all
/// others: so nothing of it is resident, and given up it goes back to the system.
const BYTES: usize = 36 << 20;

/// How often a smaller block is halved: down to 72 KB.
const HALVINGS: u32 = 9;

/// With a smaller block, behind how many showings the whole is tried again.
const PAUSE: u8 = 63;

/// A block of memory that is never written, given up where a showing was refused. Contracts see
/// whether it is there.
///
/// It is taken again once it can be had. What rows leave that end stays with the tables, though,
/// and the allocator may not have the whole block for ever: so once a quarter of the rows has gone
/// a smaller block will do.
#[derive(Drop)]
pub struct Reserve {
    alloc: Global,
    block: Option<Vec<u8>>,
    // How many rows there were when it was given up.
    rows: u64,
    // Behind how many showings the whole is tried again.
    pause: u8,
}

impl Model for Reserve {
    ghost use Rattle.std.specs.Prelude.{Bool, is_some};

    ghost Value = { Bool };

    ghost view = { λ r. is_some r.block };
}

impl Reserve {
    /// The whole reserve.
    pub fn whole(alloc: Global) -> Result<Reserve, NoMemory>
        ensures { IfOk result (λ r. r ≡ true) }
    {
        let block = Vec::with_capacity(alloc, BYTES)?;
        Ok(Reserve {
            alloc,
            block: Some(block),
            rows: 0,
            pause: 0,
        })
    }

    /// Whether it is there.
    pub fn is_had(&self) -> bool
        ensures { result ≡ self.now }
    {
        self.block.is_some()
    }

    /// Gives it up, while there are so many rows.
    pub fn give_up(&mut self, rows: u64)
        ensures { self.new ≡ false }
    {
        self.block = None;
        self.rows = rows;
        self.pause = 0;
    }

    /// Takes it again where it was given up, if it can be had, while there are so many rows.
    pub fn take_again(&mut self, rows: u64)
        ensures { self.old ≡ true → self.new ≡ true }
    {
        if let Ok(block) = Vec::with_capacity(self.alloc, BYTES) {
            self.block = Some(block);
            return;
        }
        self.pause = PAUSE;
        if self.block.is_some() {
            return;
        }
        if rows <= self.rows - self.rows / 4 {
            self.block = smaller_block(self.alloc);
        }
    }

    /// Whether it is to be taken again: the whole of it isn't there, and where a smaller block is,
    /// so many showings have gone by.
    pub fn is_due(&mut self) -> bool
        ensures { self.new ≡ self.old }
    {
        if self.is_whole() {
            return false;
        }
        if self.block.is_some() && self.pause > 0 {
            self.pause -= 1;
            return false;
        }
        true
    }

    fn is_whole(&self) -> bool {
        match &self.block {
            None => false,
            Some(block) => block.capacity() >= BYTES,
        }
    }
}

// The largest block that can be had, of half the bytes at most.
fn smaller_block(alloc: Global) -> Option<Vec<u8>> {
    for halvings in 1..HALVINGS + 1 {
        if let Ok(block) = Vec::with_capacity(alloc, BYTES >> halvings) {
            return Some(block);
        }
    }
    None
}

use agg_types::{Col, Key};
use crossing::Values;
use period_rate::Rate;
use std::cell::Cell;
use std::marker::Model;

/// The values of every key: two rates, added up, of a row that ends.
#[derive(Clone, Copy)]
pub struct Pair {
    pub first: Rate,
    pub second: Rate,
    pub ends: u64,
}

/// Such values, which count for themselves how often they are asked for.
///
/// Contracts see the values alone.
#[derive(Drop)]
pub struct Counted {
    pair: Pair,
    reads: Cell<u64>,
}

impl Model for Counted {
    ghost use Rattle.test_stores.specs.declared.falling.pair.Pair.{Pair};

    ghost Value = { Pair };

    ghost view = { λ counted. counted.pair };
}

impl Counted {
    pub fn new(pair: Pair) -> Counted {
        Counted {
            pair,
            reads: Cell::new(0),
        }
    }

    /// How often a value was asked for so far.
    pub fn reads(&self) -> u64 {
        self.reads.get()
    }

    fn count(&self) {
        self.reads.set(self.reads.get().saturating_add(1));
    }
}

impl Values for Counted {
    ghost use Rattle.test_stores.specs.Pair.{flat_of, living_of, pair_falls, pair_stays};
    ghost use Rattle.test_stores.specs.Pair.{rows_fall, rows_stay, worth_of};

    ghost summed = { λ v table key col t. worth_of v.first v.second t };

    ghost living = { λ v table key t. living_of v.ends t };

    ghost flat = { λ v table key. flat_of v.first v.second v.ends };

    fn value(&self, table: usize, key: &Key, col: Col, t: u64) -> u128 {
        self.count();
        u128::from(self.pair.first.at(t)) + u128::from(self.pair.second.at(t))
    }

    fn live(&self, table: usize, key: &Key, t: u64) -> usize {
        self.count();
        if t < self.pair.ends { 1 } else { 0 }
    }

    fn are_fewer(&self, table: usize, key: &Key, t: u64, bound: u128) -> bool {
        self.count();
        if t < self.pair.ends {
            1 < bound
        } else {
            0 < bound
        }
    }

    fn flat_from(&self, table: usize, key: &Key) -> u64 {
        self.pair
            .first
            .zero_at()
            .max(self.pair.second.zero_at())
            .max(self.pair.ends)
    }

    ghost sums_fall = { λ v table key col t later. pair_falls v.first v.second t later };

    ghost rows_end = { λ v table key t later. rows_fall v.ends t later };

    ghost sums_stay = { λ v table key col t. pair_stays v.first v.second v.ends t };

    ghost rows_stay = { λ v table key t. rows_stay v.first v.second v.ends t };
}

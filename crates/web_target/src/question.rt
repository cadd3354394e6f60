ghost use Rattle.std.specs.Prelude.{◌≡◌};
ghost use Rattle.web_target.specs.declared.question.TargetFault.TheVariants.{NoMemory as Lack};

use agg_types::{Items, NoMemory};
use thiserror::Error;

/// The fewest entries that may be asked for.
pub const FEWEST: u64 = 1;

/// The most entries that may be asked for.
pub const MOST: u64 = 10_000;

/// How many entries are asked for where `limit` isn't there.
pub const USUAL: u64 = 1_000;

/// What a target asks for. Names are the bytes that a path's text stands for.
#[derive(Debug, Drop)]
pub enum Question {
    /// The page for people.
    Page,
    /// Whether the collector works.
    Health,
    /// The figures, for Prometheus.
    Metrics,
    /// What there is: the names of tables, filters and ranked lists, and the paths.
    Index,
    /// What the page shows.
    Overview,
    /// The peers.
    Peers(Part),
    /// Summed rows of a table: those that the conditions choose, which are written as behind the
    /// name in `show table`.
    Table {
        name: Items<u8>,
        conds: Items<u8>,
        part: Part,
    },
    /// The peers that hold a key of a table, and whether each filter of the table does. The key is
    /// the bytes that its text in the path stands for: as answers write it.
    Key {
        table: Items<u8>,
        key: Items<u8>,
    },
    /// The keys that a standing filter holds.
    Filter {
        name: Items<u8>,
        part: Part,
    },
    /// What came into the set of a standing filter and what left it, behind a number of events.
    Changes {
        name: Items<u8>,
        since: Option<u64>,
    },
    /// The keys of a ranked list.
    Rank {
        name: Items<u8>,
        part: Part,
    },
}

/// Which entries of a list: at most so many, of those behind one, or from the first on.
#[derive(Debug, Drop)]
pub struct Part {
    /// At most so many, from `FEWEST` to `MOST`.
    pub limit: u64,
    /// The bytes that the text of `after` stands for: a key as answers write it, or a peer's name.
    pub after: Option<Items<u8>>,
}

/// The words of a query so far, each none until it came.
#[derive(Debug, Drop)]
pub struct Words {
    /// The number of `limit`.
    pub limit: Option<u64>,
    /// The bytes that the text of `after` stands for.
    pub after: Option<Items<u8>>,
    /// The bytes that the text of `where` stands for.
    pub conds: Option<Items<u8>>,
    /// The number of `since`.
    pub since: Option<u64>,
}

/// What is wrong with a target.
#[derive(Clone, Copy, Debug, PartialEq, Eq, Error)]
pub enum TargetFault {
    /// Nothing is at this path.
    #[error("not found")]
    NotFound,
    /// A word of the query has no meaning for this path.
    #[error("unknown word in the query")]
    Unknown,
    /// A word of the query stands there twice.
    #[error("a word twice in the query")]
    Twice,
    /// `limit` is no number from 1 to 10,000.
    #[error("limit is a number from 1 to 10000")]
    BadLimit,
    /// `since` is no number of 64 bits.
    #[error("since is a number")]
    BadSince,
    /// An allocation failed.
    #[error("out of memory")]
    NoMemory,
}

impl From<NoMemory> for TargetFault {
    ghost from_gives = { λ _ fault. fault ≡ Lack };

    fn from(_: NoMemory) -> TargetFault {
        TargetFault::NoMemory
    }
}

//! How long the rows of a table are worth keeping.

ghost use Rattle.std.specs.Prelude.{◌≡◌};
ghost use Rattle.std.specs.List.{list_all};
ghost use Rattle.haproxy_cfg.specs.Tables.{are_rates, keep_of, longest, shorter, stores_rate};

use agg_types::Col;
use agg_types::limits::PERIOD_END;

/// The longest life of rows, in ms, that a table of rates alone needs: behind two of the longest
/// period they are 0. None where other columns are stored too, or where no row lives longer.
pub fn keep_of(cols: &[(Col, u32)], life: Option<u32>) -> Option<u64>
    ensures { result ≡ keep_of cols.now life }
{
    if are_rates(cols) {
        shorter(2 * u64::from(longest(cols)) + 1, life)
    } else {
        None
    }
}

fn shorter(ms: u64, life: Option<u32>) -> Option<u64>
    ensures { result ≡ shorter ms life }
{
    if ms < u64::from(life.unwrap_or(PERIOD_END)) {
        Some(ms)
    } else {
        None
    }
}

fn are_rates(cols: &[(Col, u32)]) -> bool
    ensures { result ≡ are_rates cols.now }
{
    !cols.is_empty() && all_rates(cols)
}

fn all_rates(cols: &[(Col, u32)]) -> bool
    ensures { result ≡ list_all stores_rate cols.now }
{
    cols.iter().all(|col| stores_rate(*col))
}

fn stores_rate(col: (Col, u32)) -> bool
    ensures { result ≡ stores_rate col }
{
    col.0.is_rate()
}

// The longest period, 0 where there is none.
fn longest(cols: &[(Col, u32)]) -> u32
    ensures { result ≡ longest cols.now }
{
    let mut most = 0;
    for col in cols {
        most = col.1.max(most);
    }
    most
}

//! The least, the median and the greatest of numbers.
ghost use Rattle.std.specs.Prelude.{◌≡◌, [], IfOk, MatchOption};
ghost use Rattle.std.specs.List.Sorted.{IsSorted};
ghost use Rattle.std.specs.Ordering.{nat_cmp};
ghost use Rattle.sim_sweep.specs.Summaries.{IsSpread};

use rows::NoMemory;

/// The least, the median and the greatest of some numbers. Of an even number of them the median is
/// the lower one of the two in the middle.
#[derive(Clone, Copy, Debug, PartialEq, Eq)]
pub struct Spread {
    /// The least.
    pub least: u64,
    /// The one in the middle.
    pub median: u64,
    /// The greatest.
    pub greatest: u64,
}

/// That of some numbers; none of no number.
pub fn spread_of(mut numbers: Vec<u64>) -> Result<Option<Spread>, NoMemory>
    ensures { IfOk result (λ spread. MatchOption spread (numbers.items ≡ [])
        (IsSpread numbers.items)) }
{
    numbers.sort()?;
    Ok(spread_in(&numbers))
}

// That of numbers in rising order.
fn spread_in(sorted: &[u64]) -> Option<Spread>
    requires { IsSorted nat_cmp sorted.now }
    ensures { MatchOption result (sorted.now ≡ []) (IsSpread sorted.now) }
{
    let least = *sorted.first()?;
    let median = *sorted.get((sorted.len() - 1) / 2)?;
    let greatest = *sorted.last()?;
    Some(Spread {
        least,
        median,
        greatest,
    })
}

//! Which lists of numbers are sets of threads.

ghost use Rattle.std.specs.Prelude.{◌↔◌, IsTrue};
ghost use Rattle.std.specs.List.{AllByRecursion};
ghost use Rattle.hg_model.specs.ThreadSets.{IsThreadSet};

use hg_model::limits::GREATEST_THREAD;
use hg_model::report::Report;

/// Whether the numbers rise, up to the greatest one of a thread.
fn is_thread_set(numbers: &[u16]) -> bool
    ensures { IsTrue result ↔ IsThreadSet numbers.now }
{
    let mut least: u16 = 0;
    for number in numbers {
        if *number < least || *number > GREATEST_THREAD {
            return false;
        }
        least = *number + 1;
    }
    true
}

/// Whether the threads of each report are a set of threads.
pub(crate) fn are_thread_sets(reports: &[Report]) -> bool
    ensures { IsTrue result ↔ AllByRecursion (λ r. IsThreadSet r.threads) reports.now }
{
    for report in reports {
        if !is_thread_set(report.threads.as_slice()) {
            return false;
        }
    }
    true
}

//! Merging reports of several lists, each of which rises.

ghost use Rattle.std.specs.Prelude.{◌≡◌, ◌<◌, ◌^◌, sum, drop, map, IfOk};
ghost use Rattle.std.specs.List.{AllByRecursion};
ghost use Rattle.hg_shards.specs.Merging as spec;
ghost use Rattle.hg_shards.specs.Merging.{ComesNext, IsNextByHeads, Rises, head_of, place_of, wins};

use hg_model::report::Report;
use std::alloc::{AllocError, Global};
use std::marker::Model;

/// Where a report stands among others: by event, and then by word.
#[derive(Clone, Copy, Debug, PartialEq, Eq, Drop)]
pub struct Place {
    /// The number of the event in the trace.
    pub event: u64,
    /// The address of the word.
    pub word: u64,
}

impl Place {
    /// The place of a report.
    pub fn of(report: &Report) -> Self
        ensures { result ≡ place_of report.now }
    {
        Place {
            event: report.event,
            word: report.word,
        }
    }

    /// Whether it comes before another one.
    pub fn comes_before(self, other: Place) -> bool
        ensures { result ≡ spec.comes_before self other }
    {
        self.event < other.event || (self.event == other.event && self.word < other.word)
    }
}

/// Whether a list with the first head is to be taken before one with the second. One without a report never is.
pub(crate) fn wins(head: Option<Place>, other: Option<Place>) -> bool
    ensures { result ≡ spec.wins head other }
{
    match head {
        None => false,
        Some(place) => match other {
            None => true,
            Some(at) => place.comes_before(at),
        },
    }
}

/// The number of the list whose first report comes next, or None where no list has a report. `heads` says where the first
/// report of each list stands, and the reports of each list rise. Of two at one place the one of the earlier list comes
/// first. It takes no memory.
pub fn next_of(heads: &[Option<Place>]) -> Option<usize>
    ensures { IsNextByHeads heads.now result }
{
    let mut best = 0;
    for (k, head) in heads.iter().enumerate() {
        if wins(*head, heads[best]) {
            best = k;
        }
    }
    if best < heads.len() && heads[best].is_some() {
        return Some(best);
    }
    None
}

/// How many reports the parts make together.
pub fn total_of(totals: &[u64]) -> u64
    requires { sum totals.now < 2 ^ 64 }
    ensures { result ≡ sum totals.now }
{
    let mut total = 0;
    for count in totals {
        total += *count;
    }
    total
}

/// Where the report at a place of a list stands, if there is one.
fn head_at(list: &[Report], place: usize) -> Option<Place>
    ensures { result ≡ head_of (drop place list.now) }
{
    if place < list.len() {
        return Some(Place::of(&list[place]));
    }
    None
}

/// A merge of several lists of reports. A contract sees what is left of each list.
#[derive(Drop)]
pub struct Merge<'a> {
    lists: &'a [Vec<Report>],
    /// How many reports of each list were given.
    given: Vec<usize>,
    /// Where the next report of each list stands.
    heads: Vec<Option<Place>>,
}

impl<'a> Model for Merge<'a> {
    ghost use Rattle.std.specs.Prelude.{List};
    ghost use Rattle.hg_model.specs.declared.report.Report.{Report};

    ghost Value = { List (List Report) };

    ghost use Rattle.hg_shards.specs.Merging.{IsUnderWay, left};

    ghost view = { λ m. left m.given.items m.lists.now };

    ghost invariant = { λ m. IsUnderWay m.lists.now m.given.items m.heads.items };
}

impl<'a> Merge<'a> {
    /// Begins a merge of lists, each of which rises by event and then by word. It takes memory for a place in each list.
    pub fn new(alloc: Global, lists: &'a [Vec<Report>]) -> Result<Self, AllocError>
        requires { AllByRecursion Rises (map (λ list. list.items) lists.now) }
        ensures { IfOk result (λ merge. merge ≡ map (λ list. list.items) lists.now) }
    {
        let given = vec![in alloc; 0; lists.len()]?;
        let mut heads = Vec::new(alloc);
        for list in lists {
            heads.push(head_at(list, 0))?;
        }
        Ok(Merge {
            lists,
            given,
            heads,
        })
    }

    /// The next report, by event and then by word, or None where all were given. It takes no memory.
    pub fn next(&mut self) -> Option<&'a Report>
        ensures { ComesNext self.old result self.new }
    {
        match next_of(&self.heads) {
            None => None,
            Some(k) => {
                let list = &self.lists[k];
                let place = self.given[k];
                let report = &list[place];
                self.given[k] = place + 1;
                self.heads[k] = head_at(list, place + 1);
                Some(report)
            }
        }
    }
}

//! Which lines the events of a batch stand in. Nearly all lines of a trace text have an event, so numbers are kept only where one is left
//! out.

ghost use Rattle.std.specs.Prelude.{◌≡◌, ◌<◌, ◌^◌, vec_capacity, vec_len};
ghost use Rattle.hg_parts.specs.Numbers.{Follows, Notes, number_at};

/// From a place of a batch on, lines are numbered one after another.
#[derive(Clone, Copy, Debug, PartialEq, Eq, Drop)]
pub struct Run {
    /// The place of the first event, counted from 0.
    pub place: u32,
    /// The number of its line.
    pub line: u64,
}

/// Notes the line of the event at a place, behind those in front of it.
#[inline(always)]
pub(crate) fn note(runs: &mut Vec<Run>, place: u32, line: u64)
    requires room { vec_len runs.old < vec_capacity runs.old }
    ensures { Notes runs.old.items place line runs.new.items }
{
    let count = runs.len();
    if count > 0 && follows(&runs[count - 1], place, line) {
        return;
    }
    runs.push_reserved(Run { place, line });
}

/// Whether the line at a place is the one that the run comes to there.
#[inline(always)]
fn follows(run: &Run, place: u32, line: u64) -> bool
    ensures { Follows run.now place line result }
{
    run.place <= place && run.line <= line && line - run.line == u64::from(place - run.place)
}

/// The number of the line at a place.
pub(crate) fn line_at(runs: &[Run], place: u32) -> u64
    requires { number_at runs.now place < 2 ^ 64 }
    ensures { result ≡ number_at runs.now place }
{
    let mut left = runs.len();
    while left > 0 {
        left -= 1;
        let run = runs[left];
        if run.place <= place {
            return run.line + u64::from(place - run.place);
        }
    }
    0
}

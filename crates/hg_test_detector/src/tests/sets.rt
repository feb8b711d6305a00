ghost use Rattle.std.specs.Prelude.{IsTrue};
ghost use Rattle.std.specs.List.Sorted.{IsStrictlyIncreasing};

use crate::tests::own::Own;
use hg_sets::{MOST_SETS, SetFault, SetTable};
use std::alloc::{AllocError, Global};
use std::process::Abort;
use std::test::Fail;

/// A call of a table, and what it answers.
#[derive(Clone, Copy)]
enum Step {
    Intern(&'static [u16], Result<u32, SetFault>),
    Join(u32, u16, Result<u32, SetFault>),
    Meet(u32, &'static [u16], Result<u32, SetFault>),
    Find(&'static [u16], Option<u32>),
    Members(u32, &'static [u16]),
    Len(u32),
}

/// How many sets there may be, and the calls of a new table.
struct Run(u32, &'static [Step]);

static RUNS: [Run; 4] = [
    // It names sets by their order of coming.
    Run(
        16,
        &[
            Step::Len(1),
            Step::Intern(&[], Ok(0)),
            Step::Intern(&[7, 300], Ok(1)),
            Step::Find(&[7], None),
            Step::Intern(&[7], Ok(2)),
            Step::Find(&[7], Some(2)),
            Step::Len(3),
            Step::Intern(&[7, 300], Ok(1)),
            Step::Members(1, &[7, 300]),
        ],
    ),
    // It joins a member.
    Run(
        16,
        &[
            Step::Intern(&[2, 9], Ok(1)),
            Step::Join(1, 5, Ok(2)),
            Step::Members(2, &[2, 5, 9]),
            Step::Join(2, 5, Ok(2)),
            Step::Join(1, 5, Ok(2)),
            Step::Len(3),
        ],
    ),
    // It meets others.
    Run(
        16,
        &[
            Step::Intern(&[2, 5, 9], Ok(1)),
            Step::Meet(1, &[1, 2, 9, 10], Ok(2)),
            Step::Members(2, &[2, 9]),
            Step::Meet(1, &[1, 2, 9, 10], Ok(2)),
            Step::Meet(1, &[2, 3, 5, 9], Ok(1)),
            Step::Meet(1, &[1, 2, 3, 4, 6, 7, 9], Ok(2)),
            Step::Meet(1, &[1, 3], Ok(0)),
            Step::Meet(1, &[], Ok(0)),
            Step::Len(3),
        ],
    ),
    // It is full at its limit.
    Run(
        2,
        &[
            Step::Join(0, 5, Ok(1)),
            Step::Join(0, 6, Err(SetFault::Full)),
            Step::Intern(&[5, 6], Err(SetFault::Full)),
            Step::Intern(&[5], Ok(1)),
            Step::Len(2),
        ],
    ),
];

/// Whether each number is below the next.
fn do_rise(members: &[u16]) -> bool
    ensures { IsTrue result → IsStrictlyIncreasing members.now }
{
    for i in 1..members.len() {
        if members[i - 1] >= members[i] {
            return false;
        }
    }
    true
}

/// Whether a call may be made and is answered so.
fn is_answered(table: &mut SetTable, step: Step) -> bool {
    match step {
        Step::Intern(members, wanted) => do_rise(members) && table.intern(members) == wanted,
        Step::Join(id, member, wanted) => id < table.len() && table.join(id, member) == wanted,
        Step::Meet(id, others, wanted) => {
            id < table.len() && do_rise(others) && table.meet(id, others) == wanted
        }
        Step::Find(members, wanted) => table.find(members) == wanted,
        Step::Members(id, members) => id < table.len() && table.members(id) == members,
        Step::Len(len) => table.len() == len,
    }
}

/// Makes calls, each of which has to be answered so.
fn follow(rt: &impl Abort, table: &mut SetTable, steps: &[Step]) {
    for step in steps {
        assert!(rt; is_answered(table, *step), "with {} sets", table.len());
    }
}

/// Makes the calls of a run on a new table.
fn take(rt: &impl Abort, alloc: Global, run: &Run) -> Result<(), AllocError> {
    assert!(rt; 1 <= run.0 && run.0 <= MOST_SETS);
    let mut own = Own {
        it: SetTable::with_limit(alloc, run.0)?,
    };
    follow(rt, &mut own.it, run.1);
    Ok(())
}

// A test, since no program shows the numbers of sets by the calls that made them.
#[test]
fn answers_each_call_of_worked_runs(rt: HostRuntime) -> Result<(), Fail> {
    for run in &RUNS {
        take(&rt, rt.alloc(), run)?;
    }
    Ok(())
}

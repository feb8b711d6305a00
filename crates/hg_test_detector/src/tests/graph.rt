ghost use Rattle.std.specs.Prelude.{◌≡◌, ◌+◌, ◌<◌, ◌≤◌, [], ◌∷◌, ◌++◌, IfOk, false, length, true};
ghost use Rattle.hg_model.specs.declared.limits.TheConstants.{THREAD_NUMBERS};
ghost use Rattle.hg_graph.specs.Graph.{Opens, names};
ghost use Rattle.hg_model.specs.Segments.{of_thread};
ghost use Rattle.hg_test_detector.specs.Earlier.{earlier};

use crate::tests::own::Own;
use hg_graph::Graph;
use hg_model::event::Event;
use hg_model::limits::MOST_SEGMENTS;
use hg_model::segment::{Mark, Predecessors, Segment};
use std::alloc::{AllocError, Global};
use std::process::Abort;
use std::test::Fail;

/// The graph of an empty trace.
fn begin(alloc: Global) -> Result<Own<Graph>, AllocError>
    ensures { IfOk result (λ made. made.it ≡ of_thread 0 [] ∷ []) }
{
    Ok(Own {
        it: Graph::new(alloc)?,
    })
}

/// Makes a fork, which opens these segments.
fn fork(
    rt: &impl Abort,
    graph: &mut Graph,
    p: u16,
    c: u16,
    opens: (u32, u32),
) -> Result<(), AllocError>
    requires parent { p < THREAD_NUMBERS }
    requires child { c < THREAD_NUMBERS }
    requires named { names graph.old p ≡ true }
    requires fresh { names graph.old c ≡ false }
    requires room { length graph.old + 2 ≤ MOST_SEGMENTS }
    ensures { IfOk result (λ done. Opens graph.old (Event.Fork p c) graph.new) }
{
    let found = graph.fork(p, c)?;
    assert!(rt; found == opens);
    Ok(())
}

/// Makes a join, which opens this segment.
fn join(rt: &impl Abort, graph: &mut Graph, p: u16, c: u16, opens: u32) -> Result<(), AllocError>
    requires joiner { p < THREAD_NUMBERS }
    requires child { c < THREAD_NUMBERS }
    requires named { names graph.old p ≡ true }
    requires room { length graph.old + 1 ≤ MOST_SEGMENTS }
    ensures { IfOk result (λ done. Opens graph.old (Event.Join p c) graph.new) }
{
    let found = graph.join(p, c)?;
    assert!(rt; found == opens);
    Ok(())
}

/// Whether a segment reaches the present one of a thread.
fn reaches_now(rt: &impl Abort, graph: &Graph, s: u32, t: u16, wanted: bool)
    requires { t < THREAD_NUMBERS }
{
    assert!(rt; graph.reaches_now(s, t) == wanted, "{s} {t}");
}

/// Whether a segment reaches another one.
fn reaches(rt: &impl Abort, graph: &mut Graph, s: u32, g: u32, wanted: bool)
    ensures { graph.new ≡ graph.old }
{
    assert!(rt; (g as usize) < graph.segments().len());
    assert!(rt; graph.reaches(s, g) == wanted, "{s} {g}");
}

/// Thread 0 forks thread 1 and joins it: segment 1 is the child's, 2 and 3 are those that thread 0 goes on with.
// A test, since no program shows which segments reach which.
#[test]
fn clocks_follow_a_fork_and_a_join(rt: HostRuntime) -> Result<(), Fail> {
    let mut own = begin(rt.alloc())?;
    let graph = &mut own.it;
    fork(&rt, graph, 0, 1, (1, 2))?;
    reaches_now(&rt, graph, 2, 1, false);
    reaches_now(&rt, graph, 0, 1, true);
    reaches_now(&rt, graph, 1, 0, false);
    join(&rt, graph, 0, 1, 3)?;
    reaches_now(&rt, graph, 1, 0, true);
    Ok(())
}

/// A thread, and the predecessors of one of its segments.
#[derive(Clone, Copy)]
struct Opened(u16, &'static [u32]);

const SEGMENTS: [Opened; 7] = [
    Opened(0, &[]),
    Opened(1, &[0]),
    Opened(0, &[0]),
    Opened(2, &[1]),
    Opened(1, &[1]),
    Opened(1, &[3, 4]),
    Opened(0, &[2, 5]),
];

/// Whether these are the segments of the forks and joins below.
fn expect_segments(rt: &impl Abort, segments: &[Segment]) {
    assert!(rt; segments.len() == SEGMENTS.len());
    for i in 0..SEGMENTS.len() {
        assert!(rt; segments[i].thread == SEGMENTS[i].0, "{i}");
        assert!(rt; segments[i].before.as_slice() == SEGMENTS[i].1, "{i}");
    }
}

/// Thread 0 forks thread 1, which forks thread 2; thread 1 joins thread 2, and thread 0 joins thread 1.
fn fork_twice_and_join(rt: &impl Abort, graph: &mut Graph) -> Result<(), AllocError>
    requires { graph.old ≡ of_thread 0 [] ∷ [] }
{
    fork(rt, graph, 0, 1, (1, 2))?;
    fork(rt, graph, 1, 2, (3, 4))?;
    assert!(rt; graph.present(1) == 4);
    reaches(rt, graph, 1, 3, true);
    reaches(rt, graph, 2, 3, false);
    reaches_now(rt, graph, 3, 1, false);
    join(rt, graph, 1, 2, 5)?;
    reaches_now(rt, graph, 3, 1, true);
    reaches_now(rt, graph, 3, 0, false);
    join(rt, graph, 0, 1, 6)
}

// A test, since `reaches` of two past segments is asked by no program.
#[test]
fn follows_forks_and_joins(rt: HostRuntime) -> Result<(), Fail> {
    let mut own = begin(rt.alloc())?;
    let graph = &mut own.it;
    fork_twice_and_join(&rt, graph)?;
    reaches_now(&rt, graph, 3, 0, true);
    reaches(&rt, graph, 6, 6, true);
    assert!(rt; graph.segments().len() == 7);
    assert!(rt; graph.thread_of(3) == 2);
    expect_segments(&rt, graph.segments());
    Ok(())
}

/// Adds a segment of a thread.
fn add(segments: &mut Vec<Segment>, thread: u16, before: Predecessors) -> Result<(), AllocError>
    ensures { IfOk result (λ done. segments.new.items ≡ segments.old.items ++ of_thread thread before ∷ []) }
{
    segments.push(Segment {
        thread,
        before,
        mark: Mark::Plain,
    })?;
    Ok(())
}

/// Those of a fork of thread 1 and its join, and one of thread 2 behind the segment between them.
fn earlier_segments(alloc: Global) -> Result<Vec<Segment>, AllocError>
    ensures { IfOk result (λ segments. segments.items ≡ earlier) }
{
    let mut segments = Vec::with_capacity(alloc, 5)?;
    add(&mut segments, 0, Predecessors::none())?;
    add(&mut segments, 1, Predecessors::one(0))?;
    add(&mut segments, 0, Predecessors::one(0))?;
    add(&mut segments, 0, Predecessors::two(1, 2))?;
    add(&mut segments, 2, Predecessors::one(2))?;
    Ok(segments)
}

/// Their graph.
fn restored(alloc: Global) -> Result<Own<Graph>, AllocError>
    ensures { IfOk result (λ made. made.it ≡ earlier) }
{
    Ok(Own {
        it: Graph::restore(alloc, earlier_segments(alloc)?)?,
    })
}

/// Whether these of the first five segments reach the present one of a thread, and no others.
fn expect_reached(rt: &impl Abort, graph: &Graph, t: u16, reached: &[u32])
    requires { t < THREAD_NUMBERS }
{
    for s in 0..5 {
        assert!(rt; graph.reaches_now(s, t) == reached.contains(&s));
    }
}

/// The present segments are 3, 1 and 4, and 0 for a thread that has none. The graph goes on as one that followed events.
// A test, since a root's reader shows the segments, and not what they reach.
#[test]
fn restores_segments(rt: HostRuntime) -> Result<(), Fail> {
    let mut own = restored(rt.alloc())?;
    let graph = &mut own.it;
    expect_reached(&rt, graph, 0, &[0, 1, 2, 3]);
    expect_reached(&rt, graph, 1, &[0, 1]);
    expect_reached(&rt, graph, 2, &[0, 2, 4]);
    expect_reached(&rt, graph, 3, &[0]);
    reaches(&rt, graph, 2, 4, true);
    reaches(&rt, graph, 1, 4, false);
    join(&rt, graph, 0, 2, 5)?;
    expect_reached(&rt, graph, 0, &[0, 1, 2, 3, 4]);
    expect_reached(&rt, graph, 1, &[0, 1]);
    Ok(())
}

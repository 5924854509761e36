// A walk along references: each number is entered once, and each reference passed once. The numbers that are open stand
// on a path of its own, so that long chains take no stack of the machine.

ghost use Rattle.std.specs.Prelude.{◌≡◌, ◌<◌, ◌++◌, [], ◌∷◌, Some, IfOk, IfErr, OnOk, IsOkUnless, length, map, slice_get, slice_set};
ghost use Rattle.cs_graph.specs.Chains.{NoCycle};
ghost use Rattle.cs_graph.specs.Graph.{graph_of, Refers, Within, AreHeights, FallAlong, IsRefusal};
ghost use Rattle.cs_graph.specs.Walk.{State, Marked, Passed, Walking, Stopped, Stepped, Walked, Found, frame_of, height_of};

use crate::GraphFault;
use crate::cycle::cycle_from;
use std::alloc::{AllocError, Global};

/// What the walk knows of a number: its height once it is done.
#[derive(Clone, Copy)]
pub(crate) enum VisitState {
    New,
    Open,
    Done(usize),
}

/// A number that is open, how many of its references are passed, and how high it is by these.
#[derive(Clone, Copy)]
pub(crate) struct Frame {
    pub(crate) number: usize,
    passed: usize,
    height: usize,
}

/// A walk: what it knows of each number, and the path of those that are open, the one entered last at its end.
#[derive(Drop)]
struct Walk {
    marks: Vec<VisitState>,
    path: Vec<Frame>,
}

/// Opens a number that is new.
fn enter(walk: &mut Walk, number: usize) -> Result<(), AllocError>
    requires { number < length walk.old.marks.items }
    ensures marks { walk.new.marks.items ≡ slice_set walk.old.marks.items number VisitState.Open }
    ensures path { OnOk result (walk.new.path.items ≡ walk.old.path.items ++ frame_of number ∷ []) }
{
    walk.marks[number] = VisitState::Open;
    walk.path.push(Frame {
        number,
        passed: 0,
        height: 0,
    })?;
    Ok(())
}

/// Passes the references of an open number up to the first one that isn't done, which is the answer.
fn pass_done(graph: &[Vec<usize>], marks: &[VisitState], frame: &mut Frame) -> Option<usize>
    requires inside { frame.old.number < length graph.now }
    requires within { Within (graph_of graph.now) }
    requires marked { Marked (graph_of graph.now) marks.now }
    requires passed { Passed (graph_of graph.now) marks.now frame.old }
    ensures { Stopped (graph_of graph.now) marks.now frame.old.number frame.new result }
{
    let references = graph[frame.number].as_slice();
    while frame.passed < references.len() {
        let next = references[frame.passed];
        let VisitState::Done(below) = marks[next] else {
            return Some(next);
        };
        frame.passed += 1;
        frame.height = frame.height.max(below + 1);
    }
    None
}

/// Goes on from the last number of the path, which was taken off: it is done, or it is put back and a number that it
/// refers to is entered.
fn step(alloc: Global, graph: &[Vec<usize>], walk: &mut Walk, last: Frame) -> Result<(), GraphFault>
    requires within { Within (graph_of graph.now) }
    requires walking { Walking (graph_of graph.now) walk.old.marks.items
        (walk.old.path.items ++ last ∷ []) }
    ensures { Stepped (graph_of graph.now) walk.old walk.new result }
{
    let mut frame = last;
    let Some(next) = pass_done(graph, &walk.marks, &mut frame) else {
        walk.marks[frame.number] = VisitState::Done(frame.height);
        return Ok(());
    };
    walk.path.push(frame)?;
    if let VisitState::New = walk.marks[next] {
        enter(walk, next)?;
        return Ok(());
    }
    let numbers = cycle_from(alloc, &walk.path, next)?;
    Err(GraphFault::Cycle { numbers })
}

/// Walks from a number that is new: then it is done, and so is all that it reaches. The path is empty before and after.
fn walk_from(
    alloc: Global,
    graph: &[Vec<usize>],
    walk: &mut Walk,
    number: usize,
) -> Result<(), GraphFault>
    requires within { Within (graph_of graph.now) }
    requires state { State (graph_of graph.now) walk.old.marks.items [] }
    requires new { slice_get walk.old.marks.items number ≡ Some VisitState.New }
    requires path { walk.old.path.items ≡ [] }
    ensures walked { Walked (graph_of graph.now)
        walk.old.marks.items walk.new.marks.items number result }
    ensures path { OnOk result (walk.new.path.items ≡ []) }
{
    enter(walk, number)?;
    while let Some(last) = walk.path.pop() {
        step(alloc, graph, walk, last)?;
    }
    Ok(())
}

/// The heights of numbers that are done.
fn heights_of(alloc: Global, marks: &[VisitState]) -> Result<Vec<usize>, AllocError>
    ensures { IfOk result (λ v. v.items ≡ map height_of marks.now) }
{
    let mut heights = Vec::with_capacity(alloc, marks.len())?;
    for mark in marks {
        heights.push(match mark {
            VisitState::Done(height) => *height,
            VisitState::New | VisitState::Open => 0,
        })?;
    }
    Ok(heights)
}

/// The height of each number, found by a walk from each that is new. What is known of the answer is one clause here, since each `?` has to show
/// each clause.
fn heights_by_walk(alloc: Global, graph: &[Vec<usize>]) -> Result<Vec<usize>, GraphFault>
    requires { Within (graph_of graph.now) }
    ensures { Found (graph_of graph.now) result }
{
    let mut walk = Walk {
        marks: vec![in alloc; VisitState::New; graph.len()]?,
        path: Vec::new(alloc),
    };
    for number in 0..graph.len() {
        if let VisitState::New = walk.marks[number] {
            walk_from(alloc, graph, &mut walk, number)?;
        }
    }
    Ok(heights_of(alloc, &walk.marks)?)
}

/// The height of each number of a graph: the length of the longest chain of references from it. `graph` has, for each
/// number, the numbers that it refers to, all of which are below `graph.len()`. Its time is linear in the numbers and
/// references, and a long chain takes no stack.
///
/// # Errors
/// `Cycle`, with numbers of which each refers to the next and the last to the first; none comes twice, and the lowest
/// comes first.
pub fn heights(alloc: Global, graph: &[Vec<usize>]) -> Result<Vec<usize>, GraphFault>
    requires { Within (graph_of graph.now) }
    ensures found { IfOk result (λ v. AreHeights (graph_of graph.now) v.items) }
    ensures falls { IfOk result (λ v. FallAlong (graph_of graph.now) v.items) }
    ensures acyclic { OnOk result (NoCycle (Refers (graph_of graph.now))) }
    ensures refused { IfErr result (λ e. IsRefusal e (graph_of graph.now)) }
    ensures only { NoCycle (Refers (graph_of graph.now))
        → IsOkUnless result GraphFault.OutOfMemory }
{
    heights_by_walk(alloc, graph)
}

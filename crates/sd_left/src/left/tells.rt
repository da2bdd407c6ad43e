//! What a tree tells of its next moves and of its open consume scopes by the counts that it keeps.
ghost use Rattle.std.specs.Prelude.{◌≡◌, ◌+◌, cond, not, IfOk};
ghost use Rattle.sd_moves.specs.numbered.Counts.{one_if};
ghost use Rattle.sd_left.specs.left.Telling.{map_tells};
ghost use Rattle.sd_left.specs.left.Tells.{tells, bodies_telling, bodies_tell, body_tells, run_tells};
ghost use Rattle.sd_left.specs.sparse.Stretch.{stretch_tells};

use crate::left::left::{Bodies, Body, Left, Run};
use crate::sparse::{Stretch, Tasks, first_moves, is_unfinished, moves_in};
use sd_list::NoMemory;

/// Whether nothing is left of an item.
pub fn is_finished(left: &Left) -> bool
    ensures { result ≡ not (tells left.now).is_unfinished }
{
    match left {
        Left::Instance(instance) => instance.is_done(),
        Left::Doing(doing) => doing.is_done(),
        Left::Points { points, .. } => are_finished(points),
        Left::Sparse { tasks, points, .. } => !is_unfinished(tasks, points),
        Left::Pool { closed, .. } => *closed,
        Left::Nested(run) => run.ended,
    }
}

/// Whether nothing is left at points, or in elements.
pub fn are_finished(bodies: &Bodies) -> bool
    ensures { result ≡ not (bodies_tell bodies.now).is_unfinished }
{
    bodies.unfinished.sum() == 0
}

/// Whether nothing is left of the items of a body.
pub fn is_body_finished(body: &Body) -> bool
    ensures { result ≡ not (body_tells body.now).is_unfinished }
{
    body.unfinished.sum() == 0
}

/// How many moves of an item come next. More than 64 bits can count are want of memory.
pub fn moves_of(left: &Left) -> Result<u64, NoMemory>
    ensures { IfOk result (λ moves. moves ≡ (tells left.now).moves) }
{
    match left {
        Left::Instance(instance) => Ok(one_if(!instance.is_done())),
        Left::Doing(doing) => Ok(one_if(!doing.is_done())),
        Left::Points { sequential, points } => Ok(moves_of_points(points, *sequential)),
        Left::Sparse {
            sequential,
            tasks,
            points,
        } => moves_of_sparse(tasks, points, *sequential),
        Left::Pool {
            active,
            waiting,
            closed,
            ..
        } => moves_of_pool(active, *waiting, *closed),
        Left::Nested(run) => Ok(moves_of_run(run)),
    }
}

/// How many moves at the points of a map come next. Of a sequential one only the first point moves of which something is left.
fn moves_of_points(points: &Bodies, sequential: bool) -> u64
    ensures { result ≡ (map_tells sequential (bodies_telling points.now)).moves }
{
    if sequential {
        return moves_of_first(points);
    }
    moves_of_bodies(points)
}

/// How many moves at the points of a map of tasklets come next. Of a sequential one only the first point moves of which something
/// is left.
fn moves_of_sparse(tasks: &Tasks, points: &Stretch, sequential: bool) -> Result<u64, NoMemory>
    ensures { IfOk result (λ moves. moves ≡ (stretch_tells sequential tasks.now points.now).moves) }
{
    if sequential {
        return Ok(first_moves(tasks, points));
    }
    moves_in(tasks, points)
}

/// How many moves at the first point come next of which something is left; 0 where nothing is left.
fn moves_of_first(points: &Bodies) -> u64
    ensures { result ≡ (bodies_telling points.now).first }
{
    match points.unfinished.find(0) {
        Some(first) => points.moves.count(first.number),
        None => 0,
    }
}

/// How many moves of a consume scope come next, whose stream has so many values that wait.
fn moves_of_pool(active: &Bodies, waiting: usize, closed: bool) -> Result<u64, NoMemory>
    ensures { IfOk result (λ moves. moves ≡ cond closed 0 ((bodies_tell active.now).moves + waiting)) }
{
    if closed {
        return Ok(0);
    }
    moves_of_bodies(active)
        .checked_add(waiting as u64)
        .ok_or(NoMemory)
}

/// 1 where so it is, and else 0.
pub(crate) fn one_if(so: bool) -> u64
    ensures { result ≡ one_if so }
{
    if so { 1 } else { 0 }
}

/// How many moves at points, or in elements, come next.
pub fn moves_of_bodies(bodies: &Bodies) -> u64
    ensures { result ≡ (bodies_tell bodies.now).moves }
{
    bodies.moves.sum()
}

/// How many moves of the items of a body come next.
pub fn moves_of_body(body: &Body) -> u64
    ensures { result ≡ (body_tells body.now).moves }
{
    body.moves.sum()
}

/// How many moves of a run of a graph come next.
pub fn moves_of_run(run: &Run) -> u64
    ensures { result ≡ (run_tells run.now).moves }
{
    if run.ended {
        return 0;
    }
    if is_body_finished(&run.body) {
        return 1;
    }
    moves_of_body(&run.body)
}

/// How many open consume scopes are in an item. More than 64 bits can count are want of memory.
pub fn pools_of(left: &Left) -> Result<u64, NoMemory>
    ensures { IfOk result (λ pools. pools ≡ (tells left.now).pools) }
{
    match left {
        Left::Instance(_) | Left::Doing(_) | Left::Sparse { .. } => Ok(0),
        Left::Points { points, .. } => Ok(pools_of_bodies(points)),
        Left::Pool { active, closed, .. } => pools_of_pool(active, *closed),
        Left::Nested(run) => Ok(pools_of_run(run)),
    }
}

/// How many open consume scopes are in a consume scope: itself, where it is not closed, and those in its elements.
fn pools_of_pool(active: &Bodies, closed: bool) -> Result<u64, NoMemory>
    ensures { IfOk result (λ pools. pools ≡ one_if (not closed) + (bodies_tell active.now).pools) }
{
    one_if(!closed)
        .checked_add(pools_of_bodies(active))
        .ok_or(NoMemory)
}

/// How many open consume scopes are in points, or in elements.
pub fn pools_of_bodies(bodies: &Bodies) -> u64
    ensures { result ≡ (bodies_tell bodies.now).pools }
{
    bodies.open.sum()
}

/// How many open consume scopes are in the items of a body.
pub fn pools_of_body(body: &Body) -> u64
    ensures { result ≡ (body_tells body.now).pools }
{
    body.open.sum()
}

/// How many open consume scopes are in a run of a graph.
pub fn pools_of_run(run: &Run) -> u64
    ensures { result ≡ (run_tells run.now).pools }
{
    if run.ended {
        return 0;
    }
    pools_of_body(&run.body)
}

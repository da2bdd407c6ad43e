ghost use Rattle.std.specs.Prelude.{◌≡◌, ℕ, List, [], true, IfOk, OnOk};
ghost use Rattle.sd_work.specs.Settle.{settle};
ghost use Rattle.sd_graph.specs.PlainTree.{GraphTree};
ghost use Rattle.sd_graph.specs.Context.{Reach};
ghost use Rattle.sd_graph.specs.declared.place.Frame.{Frame};
ghost use Rattle.sd_left.specs.tree.Standing.{run_left};
ghost use Rattle.sd_left.specs.left.Kept.{run_kept};
ghost use Rattle.sd_left.specs.left.Waits.{is_run_counted};
ghost use Rattle.sd_left.specs.left.Tells.{tells, bodies_tell, body_tells, run_tells};
ghost use Rattle.sd_fire.specs.settle.Settled.{IsLeftSettled, ArePointsSettled, AreElementsSettled, IsPoolSettled, AreItemsSettled, IsBodySettled, IsRunSettled, IsOneSettled, IsPartSettled};

use crate::settle::behind::{clear_behind, may_part_go, may_point_go};
use sd_left::{Bodies, Body, Left, Run, are_finished, pools_of, pools_of_body};
use sd_list::NoMemory;
use sd_mem::{Machine, Station};
use std::alloc::Global;

/// Closes the consume scopes of a whole run that are finished for good, and counts the values that wait in the streams of the others.
pub fn settle_run(alloc: Global, run: &mut Run, machine: &mut Machine) -> Result<(), NoMemory>
    ensures settled { OnOk result ((tree : GraphTree) (reach : ℕ → Reach) (around : List Frame) → (run_tells run.old).is_right ≡ true → run_left (run_kept run.new) tree reach around ≡ settle true [] machine.old.memories (run_left (run_kept run.old) tree reach around)) }
    ensures counted { OnOk result ((run_tells run.old).is_right ≡ true → is_run_counted run.new machine.old.memories ≡ true) }
    ensures right { OnOk result ((run_tells run.old).is_right ≡ true → (run_tells run.new).is_right ≡ true) }
    ensures stays { machine.new ≡ machine.old }
{
    settle_inside(alloc, run, true, 0, 0, machine)
}

/// A run of a graph. Here and below `may_go` tells whether the work may go on, `clear` how many of the innermost memories are such
/// that each earlier point is finished in each map between here and the memory's owner, and `depth` how many memories of the run are
/// round it. More than 64 bits can count are want of memory.
#[cycle(settle)]
fn settle_inside(
    alloc: Global,
    run: &mut Run,
    may_go: bool,
    clear: usize,
    depth: usize,
    machine: &mut Machine,
) -> Result<(), NoMemory>
    ensures settled { OnOk result ((run_tells run.old).is_right ≡ true → IsRunSettled run.old run.new may_go clear machine.old.memories) }
    ensures stays { machine.new ≡ machine.old }
{
    if run.ended {
        return Ok(());
    }
    settle_body(alloc, &mut run.body, may_go, clear, depth, machine)
}

/// Items, over their memory.
#[cycle(settle)]
fn settle_body(
    alloc: Global,
    body: &mut Body,
    may_go: bool,
    clear: usize,
    depth: usize,
    machine: &mut Machine,
) -> Result<(), NoMemory>
    ensures settled { OnOk result ((body_tells body.old).is_right ≡ true → IsBodySettled body.old body.new may_go clear machine.old.memories) }
    ensures stays { machine.new ≡ machine.old }
{
    let inside = clear.checked_add(1).ok_or(NoMemory)?;
    let deeper = depth.checked_add(1).ok_or(NoMemory)?;
    machine.lend(&mut body.own)?;
    let settled = settle_items(alloc, body, may_go, inside, deeper, machine);
    machine.give_back(&mut body.own);
    settled
}

/// Items, whose memory is the innermost one: each may go on where the earlier ones that are before it are finished.
#[cycle(settle)]
fn settle_items(
    alloc: Global,
    body: &mut Body,
    may_go: bool,
    clear: usize,
    depth: usize,
    machine: &mut Machine,
) -> Result<(), NoMemory>
    ensures settled { OnOk result ((body_tells body.old).is_right ≡ true → AreItemsSettled body.old body.new may_go clear machine.old.memories) }
    ensures stays { machine.new ≡ machine.old }
{
    let mut unit: u64 = 0;
    for _ in 0..body.parts.len() {
        let Some(found) = body.open.find(unit) else {
            return Ok(());
        };
        let ready = may_part_go(body, found.number, may_go);
        let pools = settle_part(alloc, body, found.number, ready, clear, depth, machine)?;
        unit = unit.checked_add(pools).ok_or(NoMemory)?;
    }
    Ok(())
}

/// The item of this number, which is then counted again. There are so many open consume scopes in it then.
#[cycle(settle)]
fn settle_part(
    alloc: Global,
    body: &mut Body,
    number: usize,
    may_go: bool,
    clear: usize,
    depth: usize,
    machine: &mut Machine,
) -> Result<u64, NoMemory>
    ensures settled { IfOk result (λ pools. (body_tells body.old).is_right ≡ true → IsPartSettled body.old body.new number pools may_go clear machine.old.memories) }
    ensures stays { machine.new ≡ machine.old }
{
    if number >= body.parts.len() {
        return Err(NoMemory);
    }
    settle_left(
        alloc,
        &mut body.parts[number],
        may_go,
        clear,
        depth,
        machine,
    )?;
    body.count_again(alloc, number)?;
    pools_of(&body.parts[number])
}

/// An item.
#[cycle(settle)]
fn settle_left(
    alloc: Global,
    left: &mut Left,
    may_go: bool,
    clear: usize,
    depth: usize,
    machine: &mut Machine,
) -> Result<(), NoMemory>
    ensures settled { OnOk result ((tells left.old).is_right ≡ true → IsLeftSettled left.old left.new may_go clear machine.old.memories) }
    ensures stays { machine.new ≡ machine.old }
{
    match left {
        Left::Instance(_) => Ok(()),
        Left::Doing(_) => Ok(()),
        Left::Sparse { .. } => Ok(()),
        Left::Points { sequential, points } => settle_points(
            alloc,
            points,
            *sequential,
            may_go,
            clear,
            depth,
            machine,
        ),
        Left::Pool {
            stream,
            active,
            waiting,
            closed,
        } => settle_pool(
            alloc, *stream, active, waiting, closed, may_go, clear, depth, machine,
        ),
        Left::Nested(run) => settle_nested(alloc, run, may_go, clear, depth, machine),
    }
}

/// A run of an item's graph.
#[cycle(settle)]
fn settle_nested(
    alloc: Global,
    run: &mut Box<Run>,
    may_go: bool,
    clear: usize,
    depth: usize,
    machine: &mut Machine,
) -> Result<(), NoMemory>
    ensures settled { OnOk result ((run_tells run.old.value).is_right ≡ true → IsRunSettled run.old.value run.new.value may_go clear machine.old.memories) }
    ensures stays { machine.new ≡ machine.old }
{
    settle_inside(alloc, run, may_go, clear, depth, machine)
}

/// The points of a map. Behind one that is unfinished no memory outside of the map is clear, and in a sequential map no point may
/// go on.
#[cycle(settle)]
fn settle_points(
    alloc: Global,
    points: &mut Bodies,
    sequential: bool,
    may_go: bool,
    clear: usize,
    depth: usize,
    machine: &mut Machine,
) -> Result<(), NoMemory>
    ensures settled { OnOk result ((bodies_tell points.old).is_right ≡ true → ArePointsSettled sequential points.old points.new may_go clear machine.old.memories) }
    ensures stays { machine.new ≡ machine.old }
{
    let mut unit: u64 = 0;
    for _ in 0..points.bodies.len() {
        let Some(found) = points.open.find(unit) else {
            return Ok(());
        };
        let number = found.number;
        let ready = may_point_go(&points.unfinished, number, sequential, may_go);
        let outside = clear_behind(&points.unfinished, number, clear);
        let pools = settle_one(alloc, points, number, ready, outside, depth, machine)?;
        unit = unit.checked_add(pools).ok_or(NoMemory)?;
    }
    Ok(())
}

/// A consume scope, whose elements are settled first.
#[cycle(settle)]
fn settle_pool(
    alloc: Global,
    stream: Station,
    active: &mut Bodies,
    waiting: &mut usize,
    closed: &mut bool,
    may_go: bool,
    clear: usize,
    depth: usize,
    machine: &mut Machine,
) -> Result<(), NoMemory>
    ensures settled { OnOk result ((bodies_tell active.old).is_right ≡ true → IsPoolSettled stream active.old closed.old active.new waiting.new closed.new may_go clear machine.old.memories) }
    ensures stays { machine.new ≡ machine.old }
{
    settle_elements(alloc, active, may_go, clear, depth, machine)?;
    *waiting = machine.waiting(stream);
    let finished = may_go && are_finished(active) && *waiting == 0 && stream.level < clear;
    *closed = *closed || finished;
    Ok(())
}

/// The elements of a consume scope, in the order of taking.
#[cycle(settle)]
fn settle_elements(
    alloc: Global,
    active: &mut Bodies,
    may_go: bool,
    clear: usize,
    depth: usize,
    machine: &mut Machine,
) -> Result<(), NoMemory>
    ensures settled { OnOk result ((bodies_tell active.old).is_right ≡ true → AreElementsSettled active.old active.new may_go clear machine.old.memories) }
    ensures stays { machine.new ≡ machine.old }
{
    let mut unit: u64 = 0;
    for _ in 0..active.bodies.len() {
        let Some(found) = active.open.find(unit) else {
            return Ok(());
        };
        let pools = settle_one(alloc, active, found.number, may_go, clear, depth, machine)?;
        unit = unit.checked_add(pools).ok_or(NoMemory)?;
    }
    Ok(())
}

/// The point or element of this number, which is then counted again. There are so many open consume scopes in it then.
#[cycle(settle)]
fn settle_one(
    alloc: Global,
    bodies: &mut Bodies,
    number: usize,
    may_go: bool,
    clear: usize,
    depth: usize,
    machine: &mut Machine,
) -> Result<u64, NoMemory>
    ensures settled { IfOk result (λ pools. (bodies_tell bodies.old).is_right ≡ true → IsOneSettled bodies.old bodies.new number pools may_go clear machine.old.memories) }
    ensures stays { machine.new ≡ machine.old }
{
    if number >= bodies.bodies.len() {
        return Err(NoMemory);
    }
    settle_body(
        alloc,
        &mut bodies.bodies[number],
        may_go,
        clear,
        depth,
        machine,
    )?;
    bodies.count_again(number)?;
    Ok(pools_of_body(&bodies.bodies[number]))
}

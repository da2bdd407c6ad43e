ghost use Rattle.std.specs.Prelude.{◌≡◌, true, OnOk};
ghost use Rattle.sd_left.specs.left.Tells.{tells, bodies_tell, body_tells, run_tells};
ghost use Rattle.sd_core.specs.release.Changed.{IsLeftReleased, AreBodiesReleased, AreItemsReleased, IsOwnerReleased, IsRunReleased};

use crate::release::owner::let_go;
use crate::release::sparse::release_sparse;
use sd_left::{Bodies, Body, Left, Run, is_body_finished, pools_of_body};
use sd_list::NoMemory;
use std::alloc::Global;

/// Lets go of what the first point or element holds that is finished on the way to a place. One in which a consume scope is open
/// keeps all.
#[cycle(release)]
pub(crate) fn release_run(alloc: Global, run: &mut Run, path: &[usize]) -> Result<(), NoMemory>
    ensures { OnOk result ((run_tells run.old).is_right ≡ true → IsRunReleased run.old run.new) }
{
    if run.ended {
        return Ok(());
    }
    release_items(alloc, &mut run.body, path)
}

/// In the items of a body, of which one that was changed is counted again.
#[cycle(release)]
fn release_items(alloc: Global, body: &mut Body, path: &[usize]) -> Result<(), NoMemory>
    ensures { OnOk result ((body_tells body.old).is_right ≡ true → AreItemsReleased body.old body.new) }
{
    let Some((number, inner)) = path.split_first() else {
        return Ok(());
    };
    let number = *number;
    if number >= body.parts.len() {
        return Ok(());
    }
    release_left(alloc, &mut body.parts[number], inner)?;
    body.count_again(alloc, number)
}

/// In an item.
#[cycle(release)]
fn release_left(alloc: Global, left: &mut Left, path: &[usize]) -> Result<(), NoMemory>
    ensures { OnOk result ((tells left.old).is_right ≡ true → IsLeftReleased left.old left.new) }
{
    match left {
        Left::Instance(_) => Ok(()),
        Left::Doing(_) => Ok(()),
        Left::Points { points, .. } => release_bodies(alloc, points, path),
        Left::Sparse { tasks, points, .. } => release_sparse(alloc, tasks, points, path),
        Left::Pool { active, .. } => release_active(alloc, active, path),
        Left::Nested(run) => release_run(alloc, run, path),
    }
}

/// In the elements of a consume scope. The take of a value finishes none.
#[cycle(release)]
fn release_active(alloc: Global, active: &mut Bodies, path: &[usize]) -> Result<(), NoMemory>
    ensures { OnOk result ((bodies_tell active.old).is_right ≡ true → AreBodiesReleased active.old active.new) }
{
    let Some((choice, inner)) = path.split_first() else {
        return Ok(());
    };
    if *choice == 0 {
        return Ok(());
    }
    release_bodies(alloc, active, inner)
}

/// In points or elements, of which one that was changed is counted again.
#[cycle(release)]
fn release_bodies(alloc: Global, bodies: &mut Bodies, path: &[usize]) -> Result<(), NoMemory>
    ensures { OnOk result ((bodies_tell bodies.old).is_right ≡ true → AreBodiesReleased bodies.old bodies.new) }
{
    let Some((number, inner)) = path.split_first() else {
        return Ok(());
    };
    let number = *number;
    if number >= bodies.bodies.len() {
        return Ok(());
    }
    release_owner(alloc, &mut bodies.bodies[number], inner)?;
    bodies.count_again(number)
}

/// Of a point or an element, where nothing is left of it, and else in its items.
#[cycle(release)]
fn release_owner(alloc: Global, body: &mut Body, path: &[usize]) -> Result<(), NoMemory>
    ensures { OnOk result ((body_tells body.old).is_right ≡ true → IsOwnerReleased body.old body.new) }
{
    if is_body_finished(body) && pools_of_body(body) == 0 {
        return let_go(alloc, body);
    }
    release_items(alloc, body, path)
}

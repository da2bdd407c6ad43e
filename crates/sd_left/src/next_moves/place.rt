ghost use Rattle.std.specs.Prelude.{◌≡◌, ◌<◌, ◌++◌, ◌∷◌, [], ℕ, ℤ, List, Bool, true, IfOk, OnOk};
ghost use Rattle.sd_work.specs.Memory.{Memories};
ghost use Rattle.sd_work.specs.Residual.{Term, list, pool, Points};
ghost use Rattle.sd_moves.specs.numbered.Places.{place_of, place_in_active};
ghost use Rattle.sd_graph.specs.PlainTree.{KindTree, ItemTrees, GraphTree};
ghost use Rattle.sd_graph.specs.Context.{Context, Reach};
ghost use Rattle.sd_graph.specs.Unfold.{order_of_points};
ghost use Rattle.sd_graph.specs.declared.place.Frame.{Frame};
ghost use Rattle.sd_graph.specs.declared.place.Place.{Place};
ghost use Rattle.sd_left.specs.tree.Standing.{body_left, points_left, active_left, run_left};
ghost use Rattle.sd_left.specs.left.Kept.{left_of, bodies_kept, body_kept, run_kept};
ghost use Rattle.sd_left.specs.left.Waits.{is_counted, are_bodies_counted, is_body_counted, is_run_counted};
ghost use Rattle.sd_left.specs.left.Telling.{map_tells};
ghost use Rattle.sd_left.specs.left.Tells.{tells, bodies_telling, bodies_tell, body_tells, run_tells};
ghost use Rattle.sd_left.specs.sparse.Stretch.{points_in, stretch_tells};
ghost use Rattle.sd_left.specs.sparse.Terms.{bodies_at};

use crate::left::{Bodies, Body, Left, Run, is_body_finished};
use crate::sparse::{Stretch, Tasks, way_in};
use sd_list::NoMemory;
use std::alloc::Global;

/// The place of the next move of this number in a run of a graph.
pub fn place_in_run(alloc: Global, run: &Run, number: u64) -> Result<Vec<usize>, NoMemory>
    ensures { IfOk result (λ place. (tree : GraphTree) (reach : ℕ → Reach) (around : List Frame) (memories : Memories) → (run_tells run.now).is_right ≡ true → is_run_counted run.now memories ≡ true → number < (run_tells run.now).moves → place.items ≡ place_of (run_left (run_kept run.now) tree reach around) memories number) }
{
    let mut place = Vec::new(alloc);
    go_into_run(run, number, &mut place)?;
    Ok(place)
}

/// The way on to the move of this number in an item.
#[cycle(place)]
fn go_into_item(left: &Left, number: u64, place: &mut Vec<usize>) -> Result<(), NoMemory>
    ensures { OnOk result ((kind : KindTree) (line : ℕ) (context : Context) (memories : Memories) → (tells left.now).is_right ≡ true → is_counted left.now memories ≡ true → number < (tells left.now).moves → place.new.items ≡ place.old.items ++ place_of (left_of left.now kind line context) memories number) }
{
    match left {
        Left::Instance(_) => Ok(()),
        Left::Doing(_) => Ok(()),
        Left::Points { points, .. } => go_into_bodies(points, number, place),
        Left::Sparse { tasks, points, .. } => go_into_sparse(tasks, points, number, place),
        Left::Pool { active, .. } => go_into_pool(active, number, place),
        Left::Nested(run) => go_into_run(run, number, place),
    }
}

/// The way to the tasklet of a point of which the move of this number is.
fn go_into_sparse(
    tasks: &Tasks,
    points: &Stretch,
    number: u64,
    place: &mut Vec<usize>,
) -> Result<(), NoMemory>
    ensures { OnOk result ((sequential : Bool) (kind : KindTree) (context : Context) (memories : Memories) → (stretch_tells sequential tasks.now points.now).is_right ≡ true → number < (stretch_tells sequential tasks.now points.now).moves → place.new.items ≡ place.old.items ++ place_of (list Points (order_of_points sequential) (points_left (bodies_at tasks.now (points_in points.now) kind context) kind context)) memories number) }
{
    let way = way_in(*place.allocator(), tasks, points, number)?;
    place.push(way.point)?;
    place.push(way.task)?;
    Ok(())
}

/// The way on in a consume scope: to an element in work, or to a value that waits.
#[cycle(place)]
fn go_into_pool(active: &Bodies, number: u64, place: &mut Vec<usize>) -> Result<(), NoMemory>
    ensures { OnOk result ((level container : ℕ) (body : ℤ → Term Place) (closed : Bool) (kind : KindTree) (context : Context) (memories : Memories) → (bodies_tell active.now).is_right ≡ true → are_bodies_counted active.now memories ≡ true → place.new.items ≡ place.old.items ++ place_of (pool level container body (active_left (bodies_kept active.now) kind context) closed) memories number) }
{
    let busy = active.moves.sum();
    if number < busy {
        place.push(1)?;
        return go_into_bodies(active, number, place);
    }
    place.push(0)?;
    place.push((number - busy) as usize)?;
    Ok(())
}

/// The way on to the point or the element in which the move of this number is. Where points come one after another, the first of
/// which something is left has the lowest numbers, as those before it have no moves.
#[cycle(place)]
fn go_into_bodies(bodies: &Bodies, number: u64, place: &mut Vec<usize>) -> Result<(), NoMemory>
    ensures points { OnOk result ((sequential : Bool) (kind : KindTree) (context : Context) (memories : Memories) → (bodies_tell bodies.now).is_right ≡ true → are_bodies_counted bodies.now memories ≡ true → number < (map_tells sequential (bodies_telling bodies.now)).moves → place.new.items ≡ place.old.items ++ place_of (list Points (order_of_points sequential) (points_left (bodies_kept bodies.now) kind context)) memories number) }
    ensures elements { OnOk result ((kind : KindTree) (context : Context) (memories : Memories) → (bodies_tell bodies.now).is_right ≡ true → are_bodies_counted bodies.now memories ≡ true → number < (bodies_tell bodies.now).moves → place.new.items ≡ place.old.items ++ place_in_active 0 (active_left (bodies_kept bodies.now) kind context) memories number) }
{
    let Some(found) = bodies.moves.find(number) else {
        return Ok(());
    };
    let Some(body) = bodies.bodies.get(found.number) else {
        return Ok(());
    };
    place.push(found.number)?;
    go_into_body(body, found.rest, place)
}

/// The way on to the item in which the move of this number is.
#[cycle(place)]
fn go_into_body(body: &Body, number: u64, place: &mut Vec<usize>) -> Result<(), NoMemory>
    ensures { OnOk result ((items : ItemTrees) (context : Context) (memories : Memories) → (body_tells body.now).is_right ≡ true → is_body_counted body.now memories ≡ true → number < (body_tells body.now).moves → place.new.items ≡ place.old.items ++ place_of (body_left (body_kept body.now) items context) ((body_kept body.now).own ∷ memories) number) }
{
    let Some(found) = body.moves.find(number) else {
        return Ok(());
    };
    let Some(part) = body.parts.get(found.number) else {
        return Ok(());
    };
    place.push(found.number)?;
    go_into_item(part, found.rest, place)
}

/// The way on in a run of a graph: into its state, or to the transition, where nothing is left of that.
#[cycle(place)]
fn go_into_run(run: &Run, number: u64, place: &mut Vec<usize>) -> Result<(), NoMemory>
    ensures { OnOk result ((tree : GraphTree) (reach : ℕ → Reach) (around : List Frame) (memories : Memories) → (run_tells run.now).is_right ≡ true → is_run_counted run.now memories ≡ true → number < (run_tells run.now).moves → place.new.items ≡ place.old.items ++ place_of (run_left (run_kept run.now) tree reach around) memories number) }
{
    if run.ended {
        return Ok(());
    }
    if is_body_finished(&run.body) {
        return Ok(());
    }
    go_into_body(&run.body, number, place)
}

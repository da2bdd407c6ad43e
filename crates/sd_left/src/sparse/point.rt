//! Points of a map of tasklets, that have begun or not.
ghost use Rattle.std.specs.Prelude.{true, ◌≡◌, ◌<◌, ◌≤◌, length, map, cond, slice_index_or, Option, IfOk};
ghost use Rattle.sd_work.specs.Residual.{is_ready};
ghost use Rattle.sd_order.specs.table.Told.{told};
ghost use Rattle.sd_leaves.specs.declared.moves.instance.Instance.{Instance as InstanceNow};
ghost use Rattle.sd_left.specs.left.Telling.{flags_told};
ghost use Rattle.sd_left.specs.sparse.Point.{tasks_at, task_tells, ready_at, point_tells};
ghost use Rattle.sd_left.specs.sparse.Stretch.{is_told};

use sd_leaves::Instance;
use sd_list::NoMemory;
use sd_mem::Memory;
use sd_order::Order;
use std::alloc::Global;

/// What is left of a point that has begun.
#[derive(Drop)]
pub struct Begun {
    /// Its private containers; `None` where they are as they began.
    pub own: Option<Memory>,
    pub tasks: Vec<Instance>,
}

/// The tasklets that each point has.
#[derive(Drop)]
pub struct Tasks {
    /// How many.
    pub count: usize,
    /// Which of them are before which.
    pub order: Order,
    /// How many moves of a point come next that has not begun.
    pub moves: u64,
}

/// How many tasklets a point has.
pub fn task_count(tasks: &Tasks, point: &Option<Begun>) -> usize
    ensures { result ≡ length (tasks_at tasks.now.count point.now) }
{
    match point {
        None => tasks.count,
        Some(begun) => begun.tasks.len(),
    }
}

/// Whether something is left of a tasklet of a point: all, where the point has not begun.
fn is_task_left(point: &Option<Begun>, count: usize, number: usize) -> bool
    requires there { number < length (tasks_at count point.now) }
    ensures { (task : Option InstanceNow) → task ≡ slice_index_or (tasks_at count point.now) number task → result ≡ (task_tells task).is_unfinished }
{
    match point {
        None => true,
        Some(begun) => !begun.tasks[number].is_done(),
    }
}

/// Whether a tasklet of a point may go on: nothing is left of each that is before it.
fn is_task_ready(tasks: &Tasks, point: &Option<Begun>, number: usize) -> bool
    ensures { result ≡ is_ready (told tasks.now.order) (flags_told (map task_tells (tasks_at tasks.now.count point.now))) number }
{
    for other in 0..task_count(tasks, point) {
        if tasks.order.is_before(other, number) && is_task_left(point, tasks.count, other) {
            return false;
        }
    }
    true
}

/// How many moves of a tasklet of a point come next: one, where something is left of it and it may go on.
fn moves_of_task(tasks: &Tasks, point: &Option<Begun>, number: usize) -> u64
    requires there { number < length (tasks_at tasks.now.count point.now) }
    ensures moves { (task : Option InstanceNow) → task ≡ slice_index_or (tasks_at tasks.now.count point.now) number task → result ≡ cond (is_ready (told tasks.now.order) (flags_told (map task_tells (tasks_at tasks.now.count point.now))) number) (task_tells task).moves 0 }
    ensures most { result ≤ 1 }
{
    if is_task_left(point, tasks.count, number) && is_task_ready(tasks, point, number) {
        return 1;
    }
    0
}

/// How many moves of each tasklet of a point come next.
pub(crate) fn moves_of_tasks(
    alloc: Global,
    tasks: &Tasks,
    point: &Option<Begun>,
) -> Result<Vec<u64>, NoMemory>
    ensures { IfOk result (λ moves. moves.items ≡ ready_at tasks.now point.now) }
{
    let mut moves = Vec::new(alloc);
    for number in 0..task_count(tasks, point) {
        moves.push(moves_of_task(tasks, point, number))?;
    }
    Ok(moves)
}

/// How many moves at a point come next.
pub(crate) fn moves_at(tasks: &Tasks, point: &Option<Begun>) -> u64
    ensures { result ≡ (point_tells tasks.now point.now).moves }
{
    let mut moves = 0;
    for number in 0..task_count(tasks, point) {
        moves += moves_of_task(tasks, point, number);
    }
    moves
}

/// Whether something is left at a point.
pub(crate) fn is_left_at(tasks: &Tasks, point: &Option<Begun>) -> bool
    ensures { result ≡ (point_tells tasks.now point.now).is_unfinished }
{
    for number in 0..task_count(tasks, point) {
        if is_task_left(point, tasks.count, number) {
            return true;
        }
    }
    false
}

impl Tasks {
    /// So many, in this order.
    pub fn of(order: Order, count: usize) -> Tasks
        ensures order { result.order ≡ order }
        ensures count { result.count ≡ count }
        ensures told { is_told result ≡ true }
    {
        let none = Tasks {
            count,
            order,
            moves: 0,
        };
        let moves = moves_at(&none, &None);
        let Tasks { count, order, .. } = none;
        Tasks {
            count,
            order,
            moves,
        }
    }
}

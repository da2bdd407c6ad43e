//! Points that stand one after another, in a tree of stretches.
ghost use Rattle.std.specs.Prelude.{◌≡◌, ◌<◌, ◌+◌, ◌++◌, ◌*◌, ◌&&◌, ℕ, nat_lt, replicate, slice_set, slice_index_or, true, None, IfOk, OnOk};
ghost use Rattle.std.specs.List.{sum};
ghost use Rattle.sd_list.specs.tally.Found.{IsFound};
ghost use Rattle.sd_left.specs.declared.sparse.point.Tasks.{Tasks as TasksNow};
ghost use Rattle.sd_left.specs.left.Telling.{count_of_first};
ghost use Rattle.sd_left.specs.sparse.Point.{ready_at, point_tells};
ghost use Rattle.sd_left.specs.sparse.Stretch.{points_in, moves_each, left_each, counted, fresh_counts, counts_of, together, is_summed, first_in, is_told, IsWay};

use crate::sparse::point::{Begun, Tasks, is_left_at, moves_at, moves_of_tasks};
use sd_list::{NoMemory, Tally};
use std::alloc::Global;
use std::mem::replace;

/// What is counted of points: how many they are, how many moves at them come next, and whether something is left at one.
#[derive(Clone, Copy)]
pub struct Counts {
    pub points: usize,
    pub moves: u64,
    pub is_unfinished: bool,
}

/// Points that stand one after another.
#[derive(Drop)]
pub enum Stretch {
    /// So many of which none has begun.
    Fresh(usize),
    /// A few; `None` is one that has not begun.
    Each(Vec<Option<Begun>>),
    /// The first ones and the others, with what is counted of both.
    Halves(Box<Stretch>, Counts, Box<Stretch>),
}

/// A tasklet of a point, by their numbers.
#[derive(Clone, Copy)]
pub struct Way {
    pub point: usize,
    pub task: usize,
}

/// How many points are in a stretch.
pub fn count_points(stretch: &Stretch) -> usize
    ensures { (tasks : TasksNow) → result ≡ (counts_of tasks stretch.now).points }
{
    match stretch {
        Stretch::Fresh(count) => *count,
        Stretch::Each(points) => points.len(),
        Stretch::Halves(_, counts, _) => counts.points,
    }
}

/// How many moves at the points of a stretch come next. More than 64 bits can count are want of memory.
pub(crate) fn moves_in(tasks: &Tasks, stretch: &Stretch) -> Result<u64, NoMemory>
    ensures { IfOk result (λ moves. moves ≡ (counts_of tasks.now stretch.now).moves) }
{
    match stretch {
        Stretch::Fresh(count) => (*count as u64).checked_mul(tasks.moves).ok_or(NoMemory),
        Stretch::Each(points) => moves_of_each(tasks, points.as_slice()),
        Stretch::Halves(_, counts, _) => Ok(counts.moves),
    }
}

/// Whether something is left at a point of a stretch.
pub(crate) fn is_unfinished(tasks: &Tasks, stretch: &Stretch) -> bool
    ensures { result ≡ (counts_of tasks.now stretch.now).is_unfinished }
{
    match stretch {
        Stretch::Fresh(count) => *count > 0 && tasks.count > 0,
        Stretch::Each(points) => is_one_left(tasks, points.as_slice()),
        Stretch::Halves(_, counts, _) => counts.is_unfinished,
    }
}

/// How many moves at points come next.
fn moves_of_each(tasks: &Tasks, points: &[Option<Begun>]) -> Result<u64, NoMemory>
    ensures { IfOk result (λ moves. moves ≡ sum (moves_each tasks.now points.now)) }
{
    let mut moves: u64 = 0;
    for point in points {
        moves = moves.checked_add(moves_at(tasks, point)).ok_or(NoMemory)?;
    }
    Ok(moves)
}

/// Whether something is left at a point of several.
fn is_one_left(tasks: &Tasks, points: &[Option<Begun>]) -> bool
    ensures { result ≡ nat_lt 0 (sum (left_each tasks.now points.now)) }
{
    for point in points {
        if is_left_at(tasks, point) {
            return true;
        }
    }
    false
}

/// How many moves of the first point come next at which something is left; 0 where nothing is left.
pub(crate) fn first_moves(tasks: &Tasks, stretch: &Stretch) -> u64
    ensures { result ≡ first_in tasks.now stretch.now }
{
    match stretch {
        Stretch::Fresh(count) => {
            if *count > 0 && tasks.count > 0 {
                return tasks.moves;
            }
            0
        }
        Stretch::Each(points) => first_of_each(tasks, points.as_slice()),
        Stretch::Halves(first, _, others) => {
            if is_unfinished(tasks, first) {
                return first_moves(tasks, first);
            }
            first_moves(tasks, others)
        }
    }
}

/// How many moves of the first point come next at which something is left; 0 where nothing is left.
fn first_of_each(tasks: &Tasks, points: &[Option<Begun>]) -> u64
    ensures { result ≡ count_of_first (moves_each tasks.now points.now) (left_each tasks.now points.now) }
{
    for point in points {
        if is_left_at(tasks, point) {
            return moves_at(tasks, point);
        }
    }
    0
}

/// What is counted of a stretch.
fn counts_in(tasks: &Tasks, stretch: &Stretch) -> Result<Counts, NoMemory>
    ensures { IfOk result (λ counts. counts ≡ counts_of tasks.now stretch.now) }
{
    Ok(Counts {
        points: count_points(stretch),
        moves: moves_in(tasks, stretch)?,
        is_unfinished: is_unfinished(tasks, stretch),
    })
}

/// Both counts together.
fn added(first: Counts, others: Counts) -> Result<Counts, NoMemory>
    ensures { IfOk result (λ counts. counts ≡ together first others) }
{
    Ok(Counts {
        points: first.points.checked_add(others.points).ok_or(NoMemory)?,
        moves: first.moves.checked_add(others.moves).ok_or(NoMemory)?,
        is_unfinished: first.is_unfinished || others.is_unfinished,
    })
}

/// Two stretches as one, counted.
fn joined(
    alloc: Global,
    tasks: &Tasks,
    first: Stretch,
    others: Stretch,
) -> Result<Stretch, NoMemory>
    ensures points { IfOk result (λ both. points_in both ≡ points_in first ++ points_in others) }
    ensures counts { IfOk result (λ both. counts_of tasks.now both ≡ together (counts_of tasks.now first) (counts_of tasks.now others)) }
    ensures summed { IfOk result (λ both. is_summed tasks.now both ≡ (is_summed tasks.now first && is_summed tasks.now others)) }
{
    let counts = added(counts_in(tasks, &first)?, counts_in(tasks, &others)?)?;
    let first = Box::new(alloc, first)?;
    let others = Box::new(alloc, others)?;
    Ok(Stretch::Halves(first, counts, others))
}

/// So many points at most are kept one after another: few where each has many tasklets.
fn few(tasks: &Tasks) -> usize
    ensures { 0 < result }
{
    if tasks.count == 0 || tasks.count > 8 {
        return 1;
    }
    16 / tasks.count
}

/// So many points that have not begun, one after another.
fn fresh_points(alloc: Global, count: usize) -> Result<Vec<Option<Begun>>, NoMemory>
    ensures { IfOk result (λ points. points.items ≡ replicate count None) }
{
    let mut points = Vec::with_capacity(alloc, count)?;
    for _ in 0..count {
        points.push(None)?;
    }
    Ok(points)
}

/// So many points that have not begun, cut in halves down to the one of this number.
fn cut(alloc: Global, tasks: &Tasks, count: usize, number: usize) -> Result<Stretch, NoMemory>
    requires there { number < count }
    ensures points { IfOk result (λ stretch. points_in stretch ≡ replicate count None) }
    ensures counts { IfOk result (λ stretch. is_told tasks.now ≡ true → counts_of tasks.now stretch ≡ fresh_counts tasks.now count) }
    ensures summed { IfOk result (λ stretch. is_summed tasks.now stretch ≡ true) }
{
    if count <= few(tasks) {
        return Ok(Stretch::Each(fresh_points(alloc, count)?));
    }
    let half = count / 2;
    if number < half {
        let first = cut(alloc, tasks, half, number)?;
        return joined(alloc, tasks, first, Stretch::Fresh(count - half));
    }
    let others = cut(alloc, tasks, count - half, number - half)?;
    joined(alloc, tasks, Stretch::Fresh(half), others)
}

/// Cuts a stretch down to the point of this number. All points and counts stay.
pub fn open_at(
    alloc: Global,
    tasks: &Tasks,
    stretch: &mut Stretch,
    number: usize,
) -> Result<(), NoMemory>
    ensures points { OnOk result (points_in stretch.new ≡ points_in stretch.old) }
    ensures counts { OnOk result (is_told tasks.now ≡ true → counts_of tasks.now stretch.new ≡ counts_of tasks.now stretch.old) }
    ensures summed { OnOk result (is_told tasks.now ≡ true → is_summed tasks.now stretch.old ≡ true → is_summed tasks.now stretch.new ≡ true) }
{
    match stretch {
        Stretch::Each(_) => Ok(()),
        Stretch::Fresh(count) => {
            let count = *count;
            if number < count {
                *stretch = cut(alloc, tasks, count, number)?;
            }
            Ok(())
        }
        Stretch::Halves(first, _, others) => {
            let before = count_points(first);
            if number < before {
                return open_at(alloc, tasks, first, number);
            }
            open_at(alloc, tasks, others, number - before)
        }
    }
}

/// Puts another point in the place of that of this number, down to which the stretch was cut, and gives that one.
pub fn swap(
    tasks: &Tasks,
    stretch: &mut Stretch,
    number: usize,
    point: Option<Begun>,
) -> Result<Option<Begun>, NoMemory>
    ensures was { IfOk result (λ was. is_summed tasks.now stretch.old ≡ true → was ≡ slice_index_or (points_in stretch.old) number None) }
    ensures points { OnOk result (is_summed tasks.now stretch.old ≡ true → points_in stretch.new ≡ slice_set (points_in stretch.old) number point) }
    ensures summed { OnOk result (is_summed tasks.now stretch.old ≡ true → is_summed tasks.now stretch.new ≡ true) }
{
    match stretch {
        Stretch::Fresh(_) => Err(NoMemory),
        Stretch::Each(points) => {
            if number >= points.len() {
                return Err(NoMemory);
            }
            Ok(replace(&mut points[number], point))
        }
        Stretch::Halves(first, counts, others) => {
            let before = count_points(first);
            let was = if number < before {
                swap(tasks, first, number, point)?
            } else {
                swap(tasks, others, number - before, point)?
            };
            *counts = added(counts_in(tasks, first)?, counts_in(tasks, others)?)?;
            Ok(was)
        }
    }
}

/// The tasklet of the move of this number, of a point.
fn task_of_move(
    alloc: Global,
    tasks: &Tasks,
    point: &Option<Begun>,
    rest: u64,
) -> Result<usize, NoMemory>
    ensures { IfOk result (λ task. rest < (point_tells tasks.now point.now).moves → (after : ℕ) × IsFound (ready_at tasks.now point.now) rest (record { number = task; rest = after })) }
{
    let moves = Tally::of(alloc, &moves_of_tasks(alloc, tasks, point)?)?;
    match moves.find(rest) {
        Some(found) => Ok(found.number),
        None => Ok(0),
    }
}

/// The way to the move of this number in a stretch.
pub(crate) fn way_in(
    alloc: Global,
    tasks: &Tasks,
    stretch: &Stretch,
    unit: u64,
) -> Result<Way, NoMemory>
    ensures { IfOk result (λ way. is_told tasks.now ≡ true → is_summed tasks.now stretch.now ≡ true → unit < (counts_of tasks.now stretch.now).moves → IsWay tasks.now (points_in stretch.now) unit way) }
{
    match stretch {
        Stretch::Fresh(_) => way_in_fresh(alloc, tasks, unit),
        Stretch::Each(points) => way_in_each(alloc, tasks, points.as_slice(), unit),
        Stretch::Halves(first, _, others) => {
            let before = moves_in(tasks, first)?;
            if unit < before {
                return way_in(alloc, tasks, first, unit);
            }
            let way = way_in(alloc, tasks, others, unit - before)?;
            behind(way, count_points(first))
        }
    }
}

/// The same tasklet of a point so many places behind.
fn behind(way: Way, points: usize) -> Result<Way, NoMemory>
    ensures { IfOk result (λ other. (other.point ≡ way.point + points) × (other.task ≡ way.task)) }
{
    let point = way.point.checked_add(points).ok_or(NoMemory)?;
    Ok(Way {
        point,
        task: way.task,
    })
}

/// The way to the move of this number among those of points that have not begun.
fn way_in_fresh(alloc: Global, tasks: &Tasks, unit: u64) -> Result<Way, NoMemory>
    ensures { IfOk result (λ way. (count : ℕ) → is_told tasks.now ≡ true → unit < count * tasks.now.moves → IsWay tasks.now (replicate count None) unit way) }
{
    if tasks.moves == 0 {
        return Ok(Way { point: 0, task: 0 });
    }
    let task = task_of_move(alloc, tasks, &None, unit % tasks.moves)?;
    Ok(Way {
        point: (unit / tasks.moves) as usize,
        task,
    })
}

/// The way to the move of this number among those of points one after another.
fn way_in_each(
    alloc: Global,
    tasks: &Tasks,
    points: &[Option<Begun>],
    unit: u64,
) -> Result<Way, NoMemory>
    ensures { IfOk result (λ way. unit < sum (moves_each tasks.now points.now) → IsWay tasks.now points.now unit way) }
{
    let moves = Tally::of(alloc, &each_moves(alloc, tasks, points)?)?;
    let Some(found) = moves.find(unit) else {
        return Ok(Way { point: 0, task: 0 });
    };
    let Some(point) = points.get(found.number) else {
        return Ok(Way { point: 0, task: 0 });
    };
    let task = task_of_move(alloc, tasks, point, found.rest)?;
    Ok(Way {
        point: found.number,
        task,
    })
}

/// How many moves of each point come next.
fn each_moves(alloc: Global, tasks: &Tasks, points: &[Option<Begun>]) -> Result<Vec<u64>, NoMemory>
    ensures { IfOk result (λ moves. moves.items ≡ moves_each tasks.now points.now) }
{
    let mut moves = Vec::new(alloc);
    for point in points {
        moves.push(moves_at(tasks, point))?;
    }
    Ok(moves)
}

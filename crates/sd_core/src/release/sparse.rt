//! Finished points of maps of tasklets.
ghost use Rattle.std.specs.Prelude.{◌≡◌, ◌∷◌, None, true, slice_index_or, OnOk};
ghost use Rattle.sd_left.specs.sparse.Stretch.{points_in, is_summed};
ghost use Rattle.sd_core.specs.release.Finished.{is_over, are_over};
ghost use Rattle.sd_core.specs.release.Changed.{AreSparseReleased};

use sd_leaves::Instance;
use sd_left::{Begun, Stretch, Tasks, count_points, swap};
use sd_list::NoMemory;
use std::alloc::Global;

/// Lets go of the tasklets and the private containers of the point that a path leads to, where it is finished.
pub(crate) fn release_sparse(
    alloc: Global,
    tasks: &Tasks,
    points: &mut Stretch,
    path: &[usize],
) -> Result<(), NoMemory>
    ensures { OnOk result (is_summed tasks.now points.old ≡ true → AreSparseReleased tasks.now points.old points.new) }
{
    let Some((number, _)) = path.split_first() else {
        return Ok(());
    };
    let number = *number;
    if !is_over_at(tasks, points, number) {
        return Ok(());
    }
    let over = Begun {
        own: None,
        tasks: Vec::new(alloc),
    };
    swap(tasks, points, number, Some(over))?;
    Ok(())
}

/// Whether the point of this number has begun and is finished.
fn is_over_at(tasks: &Tasks, points: &Stretch, number: usize) -> bool
    ensures { is_summed tasks.now points.now ≡ true → result ≡ is_over (slice_index_or (points_in points.now) number None) }
{
    match points {
        Stretch::Fresh(_) => false,
        Stretch::Each(points) => match points.get(number) {
            Some(Some(begun)) => are_over(begun.tasks.as_slice()),
            _ => false,
        },
        Stretch::Halves(first, _, others) => {
            let before = count_points(first);
            if number < before {
                return is_over_at(tasks, first, number);
            }
            is_over_at(tasks, others, number - before)
        }
    }
}

/// Whether nothing is left of each of these tasklets.
fn are_over(tasks: &[Instance]) -> bool
    ensures { result ≡ are_over tasks.now }
{
    for task in tasks {
        if !task.is_done() {
            return false;
        }
    }
    true
}

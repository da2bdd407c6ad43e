//! What may go on, and what is clear, behind what is unfinished.
ghost use Rattle.std.specs.Prelude.{◌≡◌, ℕ, nat_eq, cond, map, take, ◌&&◌};
ghost use Rattle.sd_work.specs.Residual.{is_ready};
ghost use Rattle.sd_work.specs.Settle.{all_true};
ghost use Rattle.sd_graph.specs.Unfold.{order_of_points};
ghost use Rattle.sd_order.specs.table.Told.{told};
ghost use Rattle.sd_left.specs.declared.left.left.Left.TheViews.{out-Body};
ghost use Rattle.sd_left.specs.left.Telling.{flags_told};
ghost use Rattle.sd_left.specs.left.Tells.{tells};

use sd_left::{Body, is_ready};
use sd_list::Tally;

/// Whether an item of a body may go on, where the body may or may not.
pub(crate) fn may_part_go(body: &Body, number: usize, may_go: bool) -> bool
    ensures { result ≡ (may_go && is_ready (told (out-Body body.now).order) (flags_told (map tells (out-Body body.now).parts.items)) number) }
{
    may_go && is_ready(&body.order, &body.parts, number)
}

/// Whether a point of a map may go on, where the map may or may not: in a sequential one nothing may be left of the points before it.
pub(crate) fn may_point_go(
    unfinished: &Tally,
    number: usize,
    sequential: bool,
    may_go: bool,
) -> bool
    ensures { result ≡ (may_go && is_ready (order_of_points sequential) (map (λ count. nat_eq count 0) (take number unfinished.now)) number) }
{
    may_go && (!sequential || are_first_finished(unfinished, number))
}

/// So many memories are clear behind the first points of a map: all that were, where those points are finished, and else none.
pub(crate) fn clear_behind(unfinished: &Tally, number: usize, clear: usize) -> usize
    ensures { result ≡ cond (all_true (map (λ count. nat_eq count 0) (take number unfinished.now))) clear 0 }
{
    if are_first_finished(unfinished, number) {
        return clear;
    }
    0
}

/// Whether nothing is left of the first points of a map, so many.
fn are_first_finished(unfinished: &Tally, number: usize) -> bool
    ensures { result ≡ all_true (map (λ count. nat_eq count 0) (take number unfinished.now)) }
{
    match unfinished.find(0) {
        Some(first) => number <= first.number,
        None => true,
    }
}

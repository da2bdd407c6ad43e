ghost use Rattle.sd_range.specs.Stage.{IsOpening};

use crate::axis::{Axis, are_filled};

/// How far a way through points has come.
#[derive(Clone, Copy)]
pub(crate) enum Stage {
    Before,
    On,
    Over,
}

/// Before the first point, or past the last where there is none.
pub(crate) fn opening_stage(axes: &[Axis]) -> Stage
    ensures { IsOpening result axes.now }
{
    if are_filled(axes) {
        Stage::Before
    } else {
        Stage::Over
    }
}

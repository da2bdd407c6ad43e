ghost use Rattle.std.specs.Prelude.{◌≡◌, ℕ, ◌+◌, ◌<◌, length, Ok};
ghost use Rattle.sd_work.specs.Memory.{Memories};
ghost use Rattle.sd_graph.specs.TaskletMeaning as meaning;
ghost use Rattle.sd_tcode.specs.op.Machine.{answered, extents_at, cell_of};
ghost use Rattle.sd_row.specs.view.View.{connectors_in, IsInput};

use crate::view::views::Views;
use sd_graph::FaultKind;
use sd_mem::Machine;
use sd_tasklet::is_inside;
use sd_tcode::Source;

/// What code sees through views at a point of a row.
#[derive(Clone, Copy)]
pub(crate) struct Sight<'a> {
    pub(crate) views: &'a Views,
    pub(crate) k: u32,
    pub(crate) machine: &'a Machine,
}

/// The extents of a connector.
#[inline(always)]
fn extents_of(views: &Views, connector: u32) -> &[u64]
    requires { connector < length views.now.inputs.items + length views.now.outputs.items }
    ensures { (k : ℕ) (memories : Memories) → result.now ≡ extents_at (connectors_in k memories views.now) connector }
{
    let connector = connector as usize;
    if connector < views.inputs.len() {
        return views.inputs[connector].extents.as_slice();
    }
    let output = connector - views.inputs.len();
    views.outputs[output].as_slice()
}

/// The element of an input at an index, or else the fault that it is not inside.
#[inline(always)]
fn element_of(
    views: &Views,
    k: u32,
    machine: &Machine,
    connector: u32,
    at: &[i64],
) -> Result<i64, FaultKind>
    requires { IsInput k views.now connector }
    ensures { result ≡ meaning.and_then (meaning.checked (extents_at (connectors_in k machine.now.memories views.now) connector) at.now) (λ at. Ok (cell_of (connectors_in k machine.now.memories views.now) connector at)) }
{
    let window = &views.inputs[connector as usize];
    if is_inside(window.extents.as_slice(), at) {
        return Ok(window.seen(k, at, machine));
    }
    Err(FaultKind::Subscript)
}

/// An index is inside a connector, or else the fault that it is not.
#[inline(always)]
fn is_at(views: &Views, connector: u32, at: &[i64]) -> Result<(), FaultKind>
    requires { connector < length views.now.inputs.items + length views.now.outputs.items }
    ensures { (k : ℕ) (memories : Memories) → meaning.checked (extents_at (connectors_in k memories views.now) connector) at.now ≡ answered result at.now }
{
    if is_inside(extents_of(views, connector), at) {
        return Ok(());
    }
    Err(FaultKind::Subscript)
}

impl<'a> Source for Sight<'a> {
    ghost use Rattle.sd_row.specs.view.View.{connectors_in, IsInput};

    ghost connectors = { λ sight. connectors_in sight.k sight.machine.now.memories sight.views.now };

    ghost is_held = { λ sight connector. IsInput sight.k sight.views.now connector };

    #[inline(always)]
    fn is_at(&self, connector: u32, at: &[i64]) -> Result<(), FaultKind> {
        is_at(self.views, connector, at)
    }

    #[inline(always)]
    fn element(&self, connector: u32, at: &[i64]) -> Result<i64, FaultKind> {
        element_of(self.views, self.k, self.machine, connector, at)
    }
}

ghost use Rattle.std.specs.Prelude.{◌≡◌, ◌∷◌, option_map, slice_get, IfOk, OnOk};
ghost use Rattle.sd_work.specs.Memory.{waiting};
ghost use Rattle.sd_work.specs.Change.{apply, take};
ghost use Rattle.sd_graph.specs.TreeFold.{graph_tree};
ghost use Rattle.sd_scope.specs.declared.scope.base.Base.{Base as BaseNow};
ghost use Rattle.sd_scope.specs.take.Taken.{IfTaken, IsElement};

use crate::scope::Scope;
use sd_graph::Sdfg;
use sd_list::NoMemory;
use sd_mem::{Machine, Memory, Station};
use std::alloc::Global;

/// A value that was taken, with the memory of its element and where the element stands.
#[derive(Drop)]
pub struct Taken {
    pub value: i64,
    pub own: Memory,
    pub scope: Scope,
}

/// Takes the value at a position of a stream, the oldest at 0, for a consume scope that stands here; `None` exactly where there is no
/// such value.
pub fn take_value(
    alloc: Global,
    stream: Station,
    position: usize,
    element: u32,
    private: &[u32],
    graph: &Sdfg,
    scope: &Scope,
    machine: &mut Machine,
) -> Result<Option<Taken>, NoMemory>
    ensures value { IfOk result (λ taken. option_map (λ taken. taken.value) taken ≡ slice_get (waiting stream.level stream.container machine.old.memories) position) }
    ensures element { IfOk result (λ taken. (base : BaseNow) → IfTaken taken (IsElement (graph_tree graph.now) base scope.now element private.now)) }
    ensures memories { OnOk result (machine.new.memories ≡ apply (take stream.level stream.container position) machine.old.memories) }
    ensures turns { OnOk result (machine.new.turns ≡ machine.old.turns) }
{
    let numbers = with_first(alloc, element, private)?;
    let mut inner = scope.inside(alloc, numbers.as_slice())?;
    let Some(value) = machine.take_at(stream, position) else {
        return Ok(None);
    };
    inner.at_element(alloc, scope, element, value)?;
    let own = Memory::of_element(alloc, &graph.containers, element, private, value)?;
    Ok(Some(Taken {
        value,
        own,
        scope: inner,
    }))
}

/// A number before others.
fn with_first(alloc: Global, first: u32, others: &[u32]) -> Result<Vec<u32>, NoMemory>
    ensures { IfOk result (λ numbers. numbers.items ≡ first ∷ others.now) }
{
    let mut numbers = vec![in alloc; first; 1]?;
    numbers.extend_from_slice(others)?;
    Ok(numbers)
}

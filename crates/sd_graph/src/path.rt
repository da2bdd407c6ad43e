ghost use Rattle.std.specs.Prelude.{◌≡◌, IfOk};

use sd_list::{NoMemory, Sequence};
use std::alloc::Global;

/// Where something is in a graph: a state, a node of it, and in a nested graph on in turn.
#[derive(Drop)]
pub struct Path {
    pub steps: Sequence<u32>,
}

impl Path {
    /// The same path once more.
    pub fn copy_of(&self, alloc: Global) -> Result<Path, NoMemory>
        ensures { IfOk result (λ copy. copy ≡ self.now) }
    {
        let steps = self.steps.as_slice().to_vec(alloc)?;
        Ok(Path {
            steps: Sequence::from(steps),
        })
    }
}

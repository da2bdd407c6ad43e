ghost use Rattle.std.specs.Prelude.{◌≡◌, IfOk};

use sd_list::{NoMemory, Sequence};
use sd_num::Width;
use sd_range::Affine;
use std::alloc::Global;

/// An array, or a stream, which has no extents.
#[derive(Drop)]
pub struct Container {
    pub extents: Sequence<Affine>,
    pub kind: ContainerKind,
    /// How many bits an element has, or a value of a stream.
    pub width: Width,
}

impl Container {
    /// The same container once more.
    pub fn copy_of(&self, alloc: Global) -> Result<Container, NoMemory>
        ensures { IfOk result (λ copy. copy ≡ self.now) }
    {
        let mut extents = Vec::with_capacity(alloc, self.extents.len())?;
        for extent in self.extents.as_slice() {
            extents.push(extent.copy_of(alloc)?)?;
        }
        Ok(Container {
            extents: Sequence::from(extents),
            kind: self.kind,
            width: self.width,
        })
    }
}

/// Whose a container is, and whether it is a stream.
#[derive(Clone, Copy, Debug, PartialEq, Eq)]
pub enum ContainerKind {
    /// An array that a caller of the graph gives.
    Argument,
    /// An array of the graph's own.
    Transient,
    /// An array of each point or element of a scope.
    Private,
    /// A stream of the graph's own.
    Stream,
    /// A stream of each point or element of a scope.
    PrivateStream,
}

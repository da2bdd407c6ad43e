ghost use Rattle.std.specs.Prelude.{◌≡◌, ◌↔◌, [], IfOk, IsTrue};
ghost use Rattle.std.specs.List.{AllByRecursion};
ghost use Rattle.sd_mem.specs.mem.Holding.{memory_of, IsSized};

use crate::mem::holding::Holding;
use sd_list::NoMemory;
use std::alloc::Global;
use std::marker::Model;

/// What each container of a graph holds: an array its elements in row order, a stream its values.
///
/// Containers are named by their numbers. The private ones, which points and elements of scopes
/// hold, hold nothing here. An array whose elements were taken out is away until they are put
/// back.
#[derive(Drop)]
pub struct Memory {
    pub(crate) holdings: Vec<Holding>,
}

impl Model for Memory {
    ghost use Rattle.sd_mem.specs.mem.Shaped.{Shaped};

    ghost Value = { Shaped };

    ghost use Rattle.sd_mem.specs.mem.Holding.{shaped_of, AreSized};

    ghost view = { shaped_of };

    ghost invariant = { AreSized };
}

impl Memory {
    /// One without containers. Takes no memory.
    pub fn empty(alloc: Global) -> Memory
        ensures { result ≡ record { shapes = []; contents = [] } }
    {
        Memory {
            holdings: Vec::new(alloc),
        }
    }

    /// The same memory once more.
    pub fn copy_of(&self, alloc: Global) -> Result<Memory, NoMemory>
        ensures { IfOk result (λ copy. copy ≡ self.now) }
    {
        Ok(Memory {
            holdings: copied(alloc, self.holdings.as_slice())?,
        })
    }

    /// Whether both hold the same, container by container in order. Takes no memory.
    pub fn same(&self, other: &Memory) -> bool
        ensures { IsTrue result ↔ (self.now ≡ other.now) }
    {
        are_same(self.holdings.as_slice(), other.holdings.as_slice())
    }
}

/// The same once more.
fn copied(alloc: Global, holdings: &[Holding]) -> Result<Vec<Holding>, NoMemory>
    requires { AllByRecursion IsSized holdings.now }
    ensures same { IfOk result (λ copy. memory_of copy.items ≡ memory_of holdings.now) }
    ensures sized { IfOk result (λ copy. AllByRecursion IsSized copy.items) }
{
    let mut copy = Vec::with_capacity(alloc, holdings.len())?;
    for holding in holdings {
        copy.push(holding.copy_of(alloc)?)?;
    }
    Ok(copy)
}

/// Whether both lists hold the same in the same order.
fn are_same(a: &[Holding], b: &[Holding]) -> bool
    ensures { IsTrue result ↔ (memory_of a.now ≡ memory_of b.now) }
{
    if a.len() != b.len() {
        return false;
    }
    for (i, holding) in a.iter().enumerate() {
        if !holding.same(&b[i]) {
            return false;
        }
    }
    true
}

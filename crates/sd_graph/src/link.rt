ghost use Rattle.std.specs.Prelude.{◌≡◌, IfOk};

use sd_list::{NoMemory, Text};
use sd_num::Resolution;
use sd_range::Subset;
use std::alloc::Global;

/// What a connector moves: which elements of which container, and how a written value meets the
/// old one.
#[derive(Drop)]
pub struct Memlet {
    pub container: u32,
    pub subset: Subset,
    /// How many elements move; -1 where the number is not known. It bounds nothing.
    pub volume: i64,
    pub resolution: Option<Resolution>,
}

impl Memlet {
    /// The same once more.
    pub fn copy_of(&self, alloc: Global) -> Result<Memlet, NoMemory>
        ensures { IfOk result (λ copy. copy ≡ self.now) }
    {
        Ok(Memlet {
            container: self.container,
            subset: self.subset.copy_of(alloc)?,
            volume: self.volume,
            resolution: self.resolution,
        })
    }
}

/// A connector with what it moves.
#[derive(Drop)]
pub struct Link {
    pub connector: Text,
    pub memlet: Memlet,
}

impl Link {
    /// The same link once more.
    pub fn copy_of(&self, alloc: Global) -> Result<Link, NoMemory>
        ensures { IfOk result (λ copy. copy ≡ self.now) }
    {
        Ok(Link {
            connector: self.connector.copy_of(alloc)?,
            memlet: self.memlet.copy_of(alloc)?,
        })
    }
}

/// The same links once more.
pub(crate) fn copied(alloc: Global, links: &[Link]) -> Result<Vec<Link>, NoMemory>
    ensures { IfOk result (λ copy. copy.items ≡ links.now) }
{
    let mut copy = Vec::with_capacity(alloc, links.len())?;
    for link in links {
        copy.push(link.copy_of(alloc)?)?;
    }
    Ok(copy)
}

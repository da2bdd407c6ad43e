ghost use Rattle.std.specs.Prelude.{◌≡◌, ◌<◌, ◌≤◌, ◌++◌, ◌∷◌, [], length, slice_set, slice_index_or, IfOk, OnOk, OnErr};
ghost use Rattle.std.specs.List.{sum};
ghost use Rattle.std.specs.Option.{MatchOption};
ghost use Rattle.sd_list.specs.tally.Found.{IsFound};

use crate::list::NoMemory;
use crate::tally::nodes::{Found, find_leaf, laid_out, others, put, sum_up, whole, width_for};
use std::alloc::Global;
use std::marker::Model;

/// The counts of parts, by the numbers of the parts.
#[derive(Drop)]
pub struct Tally {
    nodes: Vec<u64>,
    width: usize,
    depth: usize,
    parts: usize,
}

impl Model for Tally {
    ghost use Rattle.std.specs.Prelude.{ℕ, List};

    ghost Value = { List ℕ };

    ghost use Rattle.sd_list.specs.tally.Nodes.{counts_of, IsTree};

    ghost view = { λ tally. counts_of tally.nodes.items tally.width tally.parts };

    ghost invariant = { λ tally. IsTree tally.nodes.items tally.width tally.depth tally.parts };
}

impl Tally {
    /// That of these counts.
    pub fn of(alloc: Global, counts: &[u64]) -> Result<Tally, NoMemory>
        ensures { IfOk result (λ tally. tally ≡ counts.now) }
    {
        let (width, depth) = width_for(counts.len())?;
        let mut nodes = laid_out(alloc, counts, width)?;
        sum_up(&mut nodes, width)?;
        Ok(Tally {
            nodes,
            width,
            depth,
            parts: counts.len(),
        })
    }

    /// How many parts there are.
    pub fn len(&self) -> usize
        ensures { result ≡ length self.now }
    {
        self.parts
    }

    /// The sum of all counts.
    pub fn sum(&self) -> u64
        ensures { result ≡ sum self.now }
    {
        whole(&self.nodes)
    }

    /// The count of a part; 0 where there is no such part.
    pub fn count(&self, number: usize) -> u64
        ensures { result ≡ slice_index_or self.now number 0 }
    {
        if number >= self.parts {
            return 0;
        }
        self.nodes[self.width + number]
    }

    /// Gives a part another count. Where there is no such part nothing is changed.
    pub fn set(&mut self, number: usize, count: u64) -> Result<(), NoMemory>
        ensures ok { OnOk result (self.new ≡ slice_set self.old number count) }
        ensures err { OnErr result (self.new ≡ self.old) }
    {
        if number >= self.parts {
            return Ok(());
        }
        if others(&self.nodes, self.width, number)
            .checked_add(count)
            .is_none()
        {
            return Err(NoMemory);
        }
        put(&mut self.nodes, self.width, number, count);
        Ok(())
    }

    /// Puts the count of one more part behind the others.
    pub fn push(&mut self, count: u64) -> Result<(), NoMemory>
        ensures ok { OnOk result (self.new ≡ self.old ++ count ∷ []) }
        ensures err { OnErr result (self.new ≡ self.old) }
    {
        if self.parts == self.width {
            return self.push_with_room(count);
        }
        if whole(&self.nodes).checked_add(count).is_none() {
            return Err(NoMemory);
        }
        put(&mut self.nodes, self.width, self.parts, count);
        self.parts += 1;
        Ok(())
    }

    /// Puts one more count behind the others, in a tree with more room.
    fn push_with_room(&mut self, count: u64) -> Result<(), NoMemory>
        ensures ok { OnOk result (self.new ≡ self.old ++ count ∷ []) }
        ensures err { OnErr result (self.new ≡ self.old) }
    {
        let alloc = *self.nodes.allocator();
        let mut counts = Vec::new(alloc);
        counts.extend_from_slice(&self.nodes[self.width..self.width + self.parts])?;
        counts.push(count)?;
        *self = Tally::of(alloc, &counts)?;
        Ok(())
    }

    /// The part in which the unit of a number is, where the units are counted part after part; `None` where there are not so many.
    pub fn find(&self, unit: u64) -> Option<Found>
        ensures { MatchOption result (sum self.now ≤ unit) (IsFound self.now unit) }
    {
        if unit >= whole(&self.nodes) {
            return None;
        }
        Some(find_leaf(&self.nodes, self.width, self.depth, unit))
    }
}

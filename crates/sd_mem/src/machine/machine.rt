ghost use Rattle.std.specs.Prelude.{◌≡◌, ◌+◌, ◌≤◌, ◌<◌, ◌∷◌, [], zero, suc, drop, length, slice_get, true, IsTrue, IsFalse, IfOk, OnOk, OnErr};
ghost use Rattle.std.specs.Option.{MatchOption};
ghost use Rattle.sd_work.specs.Memory.{contents_of, elements_of, look, waiting, width_of};
ghost use Rattle.sd_work.specs.Change.{apply, innermost, push, take, write};
ghost use Rattle.sd_mem.specs.mem.Cells.{array_lent};
ghost use Rattle.sd_mem.specs.machine.Stack.{reference_of, IsPaid};

use crate::machine::address::{Address, Station};
use crate::mem::{Elements, Memory};
use sd_list::NoMemory;
use sd_num::{Resolution, Width};
use std::alloc::Global;
use std::marker::Model;

/// The memories, the outermost first, and the turns that are left.
#[derive(Drop)]
pub struct Machine {
    memories: Vec<Memory>,
    turns: u64,
}

impl Model for Machine {
    ghost use Rattle.sd_work.specs.BigStep.{Reached};
    ghost use Rattle.sd_mem.specs.machine.Stack.{memories_of};

    ghost Value = { Reached };

    ghost view = { λ machine. record { memories = memories_of machine.memories.items; turns = machine.turns } };
}

impl Machine {
    /// One memory, and so many turns.
    pub fn new(alloc: Global, memory: Memory, turns: u64) -> Result<Machine, NoMemory>
        ensures memories { IfOk result (λ machine. machine.memories ≡ memory.contents ∷ []) }
        ensures turns { IfOk result (λ machine. machine.turns ≡ turns) }
    {
        let mut memories = Vec::new(alloc);
        memories.push(memory)?;
        Ok(Machine { memories, turns })
    }

    /// One more memory, the innermost.
    pub fn enter(&mut self, own: Memory) -> Result<(), NoMemory>
        ensures memories { OnOk result (self.new.memories ≡ own.contents ∷ self.old.memories) }
        ensures turns { OnOk result (self.new.turns ≡ self.old.turns) }
    {
        self.memories.push(own)?;
        Ok(())
    }

    /// The innermost memory is dropped.
    pub fn leave(&mut self)
        ensures memories { self.new.memories ≡ drop 1 self.old.memories }
        ensures turns { self.new.turns ≡ self.old.turns }
    {
        self.memories.pop();
    }

    /// A memory is lent: it becomes the innermost, and what is left of it is of no use. For want of memory it stays
    /// as it is.
    pub fn lend(&mut self, own: &mut Memory) -> Result<(), NoMemory>
        ensures memories { OnOk result (self.new.memories ≡ own.old.contents ∷ self.old.memories) }
        ensures turns { OnOk result (self.new.turns ≡ self.old.turns) }
        ensures machine_stays { OnErr result (self.new ≡ self.old) }
        ensures memory_stays { OnErr result (own.new ≡ own.old) }
    {
        let alloc = *self.memories.allocator();
        self.memories.push(Memory::empty(alloc))?;
        let last = self.memories.len() - 1;
        std::mem::swap(&mut self.memories[last], own);
        Ok(())
    }

    /// The innermost memory is given back; one without containers where there is none.
    pub fn give_back(&mut self, own: &mut Memory)
        ensures memory { own.new.contents ≡ innermost self.old.memories }
        ensures memories { self.new.memories ≡ drop 1 self.old.memories }
        ensures turns { self.new.turns ≡ self.old.turns }
    {
        let alloc = *self.memories.allocator();
        *own = match self.memories.pop() {
            Some(memory) => memory,
            None => Memory::empty(alloc),
        };
    }

    /// Spends a turn, where one is wanted; `false` where none is left.
    pub fn pay(&mut self, wanted: bool) -> bool
        ensures memories { self.new.memories ≡ self.old.memories }
        ensures paid { IsTrue result → IsPaid wanted self.old.turns self.new.turns }
        ensures none { IsFalse result → (wanted ≡ true) × (self.old.turns ≡ zero) × (self.new.turns ≡ zero) }
    {
        if !wanted {
            return true;
        }
        if self.turns == 0 {
            return false;
        }
        self.turns -= 1;
        true
    }

    /// Spends so many turns; `false` where fewer are left, and then none is spent.
    pub fn pay_for(&mut self, count: u32) -> bool
        ensures memories { self.new.memories ≡ self.old.memories }
        ensures paid { IsTrue result → self.old.turns ≡ self.new.turns + count }
        ensures none { IsFalse result → (self.old.turns < count) × (self.new.turns ≡ self.old.turns) }
    {
        let count = u64::from(count);
        if self.turns < count {
            return false;
        }
        self.turns -= count;
        true
    }

    /// The value of an element; 0 where there is no such element.
    pub fn look(&self, cell: Address) -> i64
        ensures { result ≡ look (reference_of cell) self.now.memories }
    {
        match index_of(self.memories.len(), cell.station.level) {
            Some(i) => self.memories[i].cell(cell.station.container, cell.element),
            None => 0,
        }
    }

    /// The width of a container's elements or values; 64 bits where it is not there.
    pub fn width(&self, station: Station) -> Width
        ensures { result ≡ width_of (contents_of station.level station.container self.now.memories) }
    {
        match index_of(self.memories.len(), station.level) {
            Some(i) => self.memories[i].width(station.container),
            None => Width::W64,
        }
    }

    /// The elements of an array in row order; none where there is no such array.
    pub fn cells(&self, station: Station) -> Elements
        ensures elements { elements_of (array_lent result) ≡ elements_of (contents_of station.level station.container self.now.memories) }
        ensures width { width_of (array_lent result) ≡ width_of (contents_of station.level station.container self.now.memories) }
    {
        match index_of(self.memories.len(), station.level) {
            Some(i) => self.memories[i].cells(station.container),
            None => Elements::none(Width::W64),
        }
    }

    /// Writes a value to an element: it replaces the old one, or is resolved with it. Nothing changes where there is no such
    /// element.
    pub fn write(&mut self, cell: Address, by: Option<Resolution>, value: i64)
        ensures memories { self.new.memories ≡ apply (write (reference_of cell) by value) self.old.memories }
        ensures turns { self.new.turns ≡ self.old.turns }
    {
        if let Some(i) = index_of(self.memories.len(), cell.station.level) {
            self.memories[i].set(cell.station.container, cell.element, by, value);
        }
    }

    /// Appends a value to a stream. Nothing changes where there is no such stream.
    pub fn push(&mut self, station: Station, value: i64) -> Result<(), NoMemory>
        ensures memories { OnOk result (self.new.memories ≡ apply (push station.level station.container value) self.old.memories) }
        ensures turns { OnOk result (self.new.turns ≡ self.old.turns) }
        ensures stays { OnErr result (self.new ≡ self.old) }
    {
        match index_of(self.memories.len(), station.level) {
            Some(i) => self.memories[i].push(station.container, value),
            None => Ok(()),
        }
    }

    /// Takes the oldest value out of a stream; `None` exactly where it is empty or where there is no such stream.
    pub fn take(&mut self, station: Station) -> Option<i64>
        ensures oldest { result ≡ slice_get (waiting station.level station.container self.old.memories) 0 }
        ensures memories { self.new.memories ≡ apply (take station.level station.container 0) self.old.memories }
        ensures turns { self.new.turns ≡ self.old.turns }
    {
        match index_of(self.memories.len(), station.level) {
            Some(i) => self.memories[i].take(station.container),
            None => None,
        }
    }

    /// Takes the value at a position of a stream out, the oldest at 0; `None` exactly where there is no such value.
    pub fn take_at(&mut self, station: Station, position: usize) -> Option<i64>
        ensures value { result ≡ slice_get (waiting station.level station.container self.old.memories) position }
        ensures memories { self.new.memories ≡ apply (take station.level station.container position) self.old.memories }
        ensures turns { self.new.turns ≡ self.old.turns }
    {
        match index_of(self.memories.len(), station.level) {
            Some(i) => self.memories[i].take_at(station.container, position),
            None => None,
        }
    }

    /// How many values wait in a stream; none where there is no such stream.
    pub fn waiting(&self, station: Station) -> usize
        ensures { result ≡ length (waiting station.level station.container self.now.memories) }
    {
        match index_of(self.memories.len(), station.level) {
            Some(i) => self.memories[i].waiting(station.container),
            None => 0,
        }
    }

    /// How many turns are left.
    pub fn turns(&self) -> u64
        ensures { result ≡ self.now.turns }
    {
        self.turns
    }

    /// The innermost memory; one without containers where there is none.
    pub fn into_memory(self) -> Memory
        ensures { result.contents ≡ innermost self.memories }
    {
        let mut memories = self.memories;
        let alloc = *memories.allocator();
        match memories.pop() {
            Some(memory) => memory,
            None => Memory::empty(alloc),
        }
    }
}

/// Where the memory of a level stands among so many.
fn index_of(count: usize, level: usize) -> Option<usize>
    ensures { MatchOption result (count ≤ level) (λ position. level + suc position ≡ count) }
{
    if level < count {
        Some(count - 1 - level)
    } else {
        None
    }
}

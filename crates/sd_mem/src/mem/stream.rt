//! Streams, which are first in, first out. A container that is not there has no values, nor has an
//! array.
ghost use Rattle.std.specs.Prelude.{◌≡◌, ◌↔◌, length, slice_get, IsTrue, OnOk, OnErr};
ghost use Rattle.sd_work.specs.Memory.{waiting};
ghost use Rattle.sd_work.specs.Change.{push, take};
ghost use Rattle.sd_mem.specs.mem.Shaped.{alone, changed, with_values_at, HasStream};

use crate::mem::memory::Memory;
use sd_list::NoMemory;

impl Memory {
    /// Appends a value to a stream. Nothing changes where there is no such stream.
    pub fn push(&mut self, container: u32, value: i64) -> Result<(), NoMemory>
        ensures ok { OnOk result (self.new ≡ changed (push 0 container value) self.old) }
        ensures err { OnErr result (self.new ≡ self.old) }
    {
        if (container as usize) < self.holdings.len() {
            return self.holdings[container as usize].push(value);
        }
        Ok(())
    }

    /// Takes the oldest value out of a stream; `None` exactly where it is empty or where there is no
    /// such stream. Takes no memory.
    pub fn take(&mut self, container: u32) -> Option<i64>
        ensures oldest { result ≡ slice_get (waiting 0 container (alone self.old)) 0 }
        ensures taken { self.new ≡ changed (take 0 container 0) self.old }
    {
        if (container as usize) < self.holdings.len() {
            return self.holdings[container as usize].take();
        }
        None
    }

    /// Takes the value at a position of a stream out, the oldest at 0; `None` exactly where there is no such value. Takes no
    /// memory.
    pub fn take_at(&mut self, container: u32, position: usize) -> Option<i64>
        ensures value { result ≡ slice_get (waiting 0 container (alone self.old)) position }
        ensures taken { self.new ≡ changed (take 0 container position) self.old }
    {
        if (container as usize) < self.holdings.len() {
            return self.holdings[container as usize].take_at(position);
        }
        None
    }

    /// Puts other values into a stream in the place of its own, each wrapped to its width. Nothing changes where there is no such
    /// stream.
    pub fn put_values(&mut self, container: u32, values: Vec<i64>) -> Result<(), NoMemory>
        ensures ok { OnOk result (self.new ≡ with_values_at container values.items self.old) }
        ensures err { OnErr result (self.new ≡ self.old) }
    {
        let alloc = *self.holdings.allocator();
        if (container as usize) < self.holdings.len() {
            return self.holdings[container as usize].put_values(alloc, values);
        }
        Ok(())
    }

    /// The value that waits at a position of a stream, the oldest at 0; `None` exactly where there is no such value.
    pub fn value_at(&self, container: u32, position: usize) -> Option<i64>
        ensures { result ≡ slice_get (waiting 0 container (alone self.now)) position }
    {
        self.holdings.get(container as usize)?.value_at(position)
    }

    /// Whether there is such a container, and it is a stream.
    pub fn is_stream(&self, container: u32) -> bool
        ensures { IsTrue result ↔ HasStream self.now container }
    {
        match self.holdings.get(container as usize) {
            Some(holding) => holding.is_stream(),
            None => false,
        }
    }

    /// How many values a stream has; none where there is no such stream.
    pub fn waiting(&self, container: u32) -> usize
        ensures { result ≡ length (waiting 0 container (alone self.now)) }
    {
        match self.holdings.get(container as usize) {
            Some(holding) => holding.waiting(),
            None => 0,
        }
    }
}

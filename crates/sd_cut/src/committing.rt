//! The end of a cut: whether a memory is as it was, and what was done on it performed in a memory.
ghost use Rattle.std.specs.Prelude.{◌≡◌, ◌↔◌, ◌<◌, ◌≤◌, ◌^◌, length, map, replicate, take, IfErr, IsTrue, OnOk, OnErr};
ghost use Rattle.sd_work.specs.Memory.{waiting};
ghost use Rattle.sd_work.specs.Change as change;
ghost use Rattle.sd_mem.specs.mem.Shaped.{alone};
ghost use Rattle.sd_cut.specs.Elements.{all_changed};
ghost use Rattle.sd_cut.specs.Streams.{all_pushes, all_takes, pushed_of, taken_of};
ghost use Rattle.sd_cut.specs.Undo.{all_taken_back, taken_back};
ghost use Rattle.sd_cut.specs.Using.{committed, Agrees};

use crate::effects::perform_all;
use crate::elements::are_all_as_cut;
use crate::overlay::Overlay;
use crate::streams::{CutStream, StreamUse, are_streams_as_cut, waiting_at};
use sd_list::NoMemory;
use sd_mem::Memory;

impl Overlay {
    /// Whether each kept element and each drained stream is in this memory as it was when it was cut. Takes no memory.
    pub fn agrees(&self, memory: &Memory) -> bool
        ensures { IsTrue result ↔ Agrees self.now memory.now }
    {
        are_all_as_cut(memory, self.arrays.as_slice())
            && are_streams_as_cut(memory, self.streams.as_slice())
    }

    /// Performs what was done: values are pushed and taken, elements replaced or resolved. For want of memory nothing changes, and the overlay
    /// comes back. Only pushes take memory.
    pub fn commit(self, memory: &mut Memory) -> Result<(), (NoMemory, Overlay)>
        ensures ok { OnOk result (memory.new ≡ committed self memory.old) }
        ensures err { OnErr result (memory.new ≡ memory.old) }
        ensures back { IfErr result (λ refused. refused.1 ≡ self) }
    {
        match push_all(memory, self.streams.as_slice(), &self.left) {
            Ok(()) => {}
            Err(refusal) => return Err((refusal, self)),
        }
        take_all(memory, self.streams.as_slice());
        perform_all(memory, self.arrays.as_slice(), &self.left);
        Ok(())
    }
}

/// How many values are pushed to a stream when it is committed: the first ones of those that are left.
fn count_pushed(stream: &Option<CutStream>, left: &Memory, container: u32) -> usize
    ensures count { result ≡ length (pushed_of stream.now (waiting 0 container (alone left.now))) }
    ensures pushed { pushed_of stream.now (waiting 0 container (alone left.now)) ≡ take result (waiting 0 container (alone left.now)) }
{
    match stream {
        None => 0,
        Some(stream) => match stream.usage {
            StreamUse::Unused => 0,
            StreamUse::Drained | StreamUse::Appended => left.waiting(container),
        },
    }
}

/// How many values are taken from a stream when it is committed.
fn count_taken(stream: &Option<CutStream>) -> usize
    ensures { result ≡ taken_of stream.now }
{
    match stream {
        None => 0,
        Some(stream) => match stream.usage {
            StreamUse::Unused | StreamUse::Appended => 0,
            StreamUse::Drained => stream.taken,
        },
    }
}

/// Takes the newest values of a stream back, so many.
fn take_back(memory: &mut Memory, container: u32, count: usize)
    ensures { memory.new ≡ taken_back container count memory.old }
{
    for _ in 0..count {
        let waiting = memory.waiting(container);
        memory.take_at(container, waiting.saturating_sub(1));
    }
}

/// Pushes the first values of a stream that is left, so many; for want of memory nothing changes.
fn push_first(
    memory: &mut Memory,
    container: u32,
    left: &Memory,
    count: usize,
) -> Result<(), NoMemory>
    requires { count ≤ length (waiting 0 container (alone left.now)) }
    ensures ok { OnOk result (memory.new ≡ all_changed (map (change.push 0 container) (take count (waiting 0 container (alone left.now)))) memory.old) }
    ensures err { OnErr result (memory.new ≡ memory.old) }
{
    for position in 0..count {
        match memory.push(container, waiting_at(left, container, position)) {
            Ok(()) => {}
            Err(refusal) => {
                take_back(memory, container, position);
                return Err(refusal);
            }
        }
    }
    Ok(())
}

/// Takes the values back that were pushed to streams, the last stream first.
fn take_all_back(memory: &mut Memory, streams: &[Option<CutStream>], left: &Memory, count: usize)
    requires few { length streams.now < 2 ^ 32 }
    requires within { count ≤ length streams.now }
    ensures { memory.new ≡ all_taken_back count left.now streams.now memory.old }
{
    let mut before = count;
    while before > 0 {
        before -= 1;
        let pushed = count_pushed(&streams[before], left, before as u32);
        take_back(memory, before as u32, pushed);
    }
}

/// Pushes what was pushed to each stream, by the containers' numbers; for want of memory nothing changes.
fn push_all(
    memory: &mut Memory,
    streams: &[Option<CutStream>],
    left: &Memory,
) -> Result<(), NoMemory>
    requires few { length streams.now < 2 ^ 32 }
    ensures ok { OnOk result (memory.new ≡ all_changed (all_pushes 0 left.now streams.now) memory.old) }
    ensures err { OnErr result (memory.new ≡ memory.old) }
{
    for (number, stream) in streams.iter().enumerate() {
        let container = number as u32;
        let count = count_pushed(stream, left, container);
        match push_first(memory, container, left, count) {
            Ok(()) => {}
            Err(refusal) => {
                take_all_back(memory, streams, left, number);
                return Err(refusal);
            }
        }
    }
    Ok(())
}

/// Takes the oldest values of a stream, so many.
fn take_oldest(memory: &mut Memory, container: u32, count: usize)
    ensures { memory.new ≡ all_changed (replicate count (change.take 0 container 0)) memory.old }
{
    for _ in 0..count {
        memory.take(container);
    }
}

/// Takes what was taken from each stream, by the containers' numbers.
fn take_all(memory: &mut Memory, streams: &[Option<CutStream>])
    requires few { length streams.now < 2 ^ 32 }
    ensures { memory.new ≡ all_changed (all_takes 0 streams.now) memory.old }
{
    for (number, stream) in streams.iter().enumerate() {
        take_oldest(memory, number as u32, count_taken(stream));
    }
}

//! Streams that were cut.
ghost use Rattle.std.specs.Prelude.{◌≡◌, ◌↔◌, ◌<◌, ◌≤◌, ◌^◌, ◌++◌, ℕ, None, length, pos, slice_index_or, IfOk, IsTrue, OnOk, OnErr};
ghost use Rattle.std.specs.Option.{option_and_then, option_map};
ghost use Rattle.sd_work.specs.Change.{changed_at};
ghost use Rattle.sd_work.specs.Memory.{waiting};
ghost use Rattle.sd_mem.specs.mem.Shaped.{alone};
ghost use Rattle.sd_cut.specs.Streams.{next_cut, stream_taken, stream_drained, stream_appended, IsStreamAsCut, AreStreamsAsCut, IsTakenWithin};
ghost use Rattle.sd_cut.specs.Using.{left_drained, seen_of};

use sd_list::{NoMemory, Sequence};
use sd_mem::Memory;
use std::alloc::Global;

/// How a stream that was cut was used since.
#[derive(Clone, Copy)]
pub enum StreamUse {
    /// Nothing touched it.
    Unused,
    /// It was taken from, or may have been. Values may have been appended to it.
    Drained,
    /// Values were appended to it alone, or may have been.
    Appended,
}

/// A stream that was cut.
#[derive(Drop)]
pub struct CutStream {
    /// Its values when it was cut, the oldest first.
    pub opening: Sequence<i64>,
    /// How many of these were taken.
    pub taken: usize,
    pub usage: StreamUse,
}

/// Takes the next value of what was cut of a stream; `None` where none is left or where there is no stream.
fn take_one(stream: &mut Option<CutStream>) -> Option<i64>
    ensures value { result ≡ option_and_then next_cut stream.old }
    ensures stream { stream.new ≡ option_map stream_taken stream.old }
{
    match stream {
        None => None,
        Some(stream) => {
            stream.usage = StreamUse::Drained;
            let next = stream.opening.as_slice().get(stream.taken).copied();
            if next.is_some() {
                stream.taken += 1;
            }
            next
        }
    }
}

/// The same of the stream of a container.
pub(crate) fn take_cut(streams: &mut [Option<CutStream>], container: u32) -> Option<i64>
    ensures value { result ≡ option_and_then next_cut (slice_index_or streams.old container None) }
    ensures streams { streams.new ≡ changed_at container (option_map stream_taken) streams.old }
{
    if (container as usize) < streams.len() {
        return take_one(&mut streams[container as usize]);
    }
    None
}

/// All of what was cut of a stream counts as taken.
fn drain_one(stream: &mut Option<CutStream>)
    ensures { stream.new ≡ option_map stream_drained stream.old }
{
    match stream {
        None => {}
        Some(stream) => {
            stream.usage = StreamUse::Drained;
            stream.taken = stream.opening.len();
        }
    }
}

/// The same of the stream of a container.
pub(crate) fn drain_cut(streams: &mut [Option<CutStream>], container: u32)
    ensures { streams.new ≡ changed_at container (option_map stream_drained) streams.old }
{
    if (container as usize) < streams.len() {
        drain_one(&mut streams[container as usize]);
    }
}

/// Values are appended to a stream.
fn append_one(stream: &mut Option<CutStream>)
    ensures { stream.new ≡ option_map stream_appended stream.old }
{
    match stream {
        None => {}
        Some(stream) => match stream.usage {
            StreamUse::Unused => stream.usage = StreamUse::Appended,
            StreamUse::Drained | StreamUse::Appended => {}
        },
    }
}

/// The same of the stream of a container.
pub(crate) fn append_cut(streams: &mut [Option<CutStream>], container: u32)
    ensures { streams.new ≡ changed_at container (option_map stream_appended) streams.old }
{
    if (container as usize) < streams.len() {
        append_one(&mut streams[container as usize]);
    }
}

/// The value that waits at a position of a stream, the oldest at 0; 0 where there is none.
pub(crate) fn waiting_at(memory: &Memory, container: u32, position: usize) -> i64
    ensures { result ≡ slice_index_or (waiting 0 container (alone memory.now)) position (pos 0) }
{
    match memory.value_at(container, position) {
        Some(value) => value,
        None => 0,
    }
}

/// The values of a stream of a memory, the oldest first, behind these.
pub(crate) fn with_waiting(
    values: Vec<i64>,
    memory: &Memory,
    container: u32,
) -> Result<Vec<i64>, NoMemory>
    ensures { IfOk result (λ all. all.items ≡ values.items ++ waiting 0 container (alone memory.now)) }
{
    let mut values = values;
    for position in 0..memory.waiting(container) {
        values.push(waiting_at(memory, container, position))?;
    }
    Ok(values)
}

/// What work sees of a stream is left, where some was not taken yet of what was cut; for want of memory nothing changes.
pub(crate) fn move_cut(
    alloc: Global,
    streams: &[Option<CutStream>],
    left: &mut Memory,
    container: u32,
) -> Result<(), NoMemory>
    requires { (container : ℕ) → IsTakenWithin (slice_index_or streams.now container None) }
    ensures ok { OnOk result (left.new ≡ left_drained (option_and_then next_cut (slice_index_or streams.now container None)) (seen_of (slice_index_or streams.now container None) (waiting 0 container (alone left.old))) container left.old) }
    ensures err { OnErr result (left.new ≡ left.old) }
{
    match streams.get(container as usize) {
        Some(Some(stream)) => {
            if stream.taken < stream.opening.len() {
                let rest = stream.opening.as_slice()[stream.taken..].to_vec(alloc)?;
                let values = with_waiting(rest, left, container)?;
                return left.put_values(container, values);
            }
            Ok(())
        }
        _ => Ok(()),
    }
}

/// Whether the values of a stream are these.
fn are_waiting(memory: &Memory, container: u32, values: &[i64]) -> bool
    ensures { IsTrue result ↔ (waiting 0 container (alone memory.now) ≡ values.now) }
{
    if memory.waiting(container) != values.len() {
        return false;
    }
    for (position, value) in values.iter().enumerate() {
        if waiting_at(memory, container, position) != *value {
            return false;
        }
    }
    true
}

/// Whether a stream, if it is drained, is in this memory as it was when it was cut.
fn is_stream_as_cut(memory: &Memory, container: u32, stream: &Option<CutStream>) -> bool
    ensures { IsTrue result ↔ IsStreamAsCut (waiting 0 container (alone memory.now)) stream.now }
{
    match stream {
        None => true,
        Some(stream) => match stream.usage {
            StreamUse::Unused | StreamUse::Appended => true,
            StreamUse::Drained => are_waiting(memory, container, stream.opening.as_slice()),
        },
    }
}

/// The same for each stream, by the containers' numbers.
pub(crate) fn are_streams_as_cut(memory: &Memory, streams: &[Option<CutStream>]) -> bool
    requires few { length streams.now < 2 ^ 32 }
    ensures { IsTrue result ↔ AreStreamsAsCut memory.now 0 streams.now }
{
    for (container, stream) in streams.iter().enumerate() {
        if !is_stream_as_cut(memory, container as u32, stream) {
            return false;
        }
    }
    true
}

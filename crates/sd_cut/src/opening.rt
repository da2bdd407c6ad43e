//! Streams that are cut, and what is left at first.
ghost use Rattle.std.specs.Prelude.{◌≡◌, ◌<◌, ◌++◌, ℕ, [], None, length, map, slice_index_or, IfOk, OnOk, OnErr};
ghost use Rattle.std.specs.Option.{option_map};
ghost use Rattle.sd_range.specs.Points.{product};
ghost use Rattle.sd_graph.specs.Wiring.{has_number};
ghost use Rattle.sd_work.specs.Memory.{waiting};
ghost use Rattle.sd_mem.specs.mem.Shaped.{alone};
ghost use Rattle.sd_cut.specs.Cutting.{all_begun, begun_with, is_wanted, opening_of, IsCounted, IsCutOf};
ghost use Rattle.sd_cut.specs.Windowed.{window_of};

use crate::elements::CutElement;
use crate::streams::{CutStream, StreamUse, with_waiting};
use crate::window::Window;
use sd_list::{NoMemory, Sequence};
use sd_mem::{Cells, Memory};
use std::alloc::Global;

/// Whether a number is one of these.
fn is_one_of(numbers: &[u32], number: usize) -> bool
    ensures { result ≡ has_number numbers.now number }
{
    for own in numbers {
        if number == *own as usize {
            return true;
        }
    }
    false
}

/// Whether a container without a window is wanted as a stream.
fn wanted(window: &Option<Window>, streams: &[u32], container: usize) -> bool
    ensures { result ≡ is_wanted window.now streams.now container }
{
    match window {
        None => is_one_of(streams, container),
        Some(_) => false,
    }
}

/// A stream, if it is wanted and there.
fn stream_if(
    alloc: Global,
    memory: &Memory,
    container: u32,
    wanted: bool,
) -> Result<Option<CutStream>, NoMemory>
    ensures { IfOk result (IsCutOf memory.now container wanted) }
{
    if !wanted || !memory.is_stream(container) {
        return Ok(None);
    }
    let values = with_waiting(Vec::new(alloc), memory, container)?;
    Ok(Some(CutStream {
        opening: Sequence::from(values),
        taken: 0,
        usage: StreamUse::Unused,
    }))
}

/// The streams that are cut, by container.
pub(crate) fn all_streams(
    alloc: Global,
    memory: &Memory,
    windows: &[Option<Window>],
    streams: &[u32],
) -> Result<Vec<Option<CutStream>>, NoMemory>
    ensures count { IfOk result (λ cut. length cut.items ≡ length windows.now) }
    ensures cut { IfOk result (λ cut. (container : ℕ) → container < length windows.now → IsCutOf memory.now container (is_wanted (slice_index_or windows.now container None) streams.now container) (slice_index_or cut.items container None)) }
{
    let mut cut = Vec::with_capacity(alloc, windows.len())?;
    for (number, window) in windows.iter().enumerate() {
        let container = u32::try_from(number).map_err(|_| NoMemory)?;
        let wanted = wanted(window, streams, number);
        cut.push(stream_if(alloc, memory, container, wanted)?)?;
    }
    Ok(cut)
}

/// The values of elements when they were cut.
fn openings(alloc: Global, cuts: &[CutElement]) -> Result<Vec<i64>, NoMemory>
    ensures { IfOk result (λ values. values.items ≡ map opening_of cuts.now) }
{
    let mut values = Vec::with_capacity(alloc, cuts.len())?;
    for cut in cuts {
        values.push(cut.opening)?;
    }
    Ok(values)
}

/// What is left of a container at first, behind the others.
fn push_left(
    alloc: Global,
    left: &mut Memory,
    memory: &Memory,
    container: u32,
    window: &Option<Window>,
    cuts: &[CutElement],
    stream: &Option<CutStream>,
) -> Result<(), NoMemory>
    requires { IsCounted (option_map window_of window.now) cuts.now }
    ensures { OnOk result (left.new ≡ begun_with memory.now container (option_map window_of window.now) cuts.now stream.now left.old) }
{
    let width = memory.width(container);
    if let Some(window) = window {
        let cells = Cells::given(alloc, width, openings(alloc, cuts)?)?;
        return left.push_array(window.extents.as_slice().to_vec(alloc)?, cells);
    }
    if stream.is_some() {
        return left.push_stream(width);
    }
    left.push_array(
        vec![in alloc; 0; 1]?,
        Cells::given(alloc, width, Vec::new(alloc))?,
    )
}

/// What is left of each container at first.
pub(crate) fn all_left(
    alloc: Global,
    memory: &Memory,
    windows: &[Option<Window>],
    arrays: &[Sequence<CutElement>],
    streams: &[Option<CutStream>],
) -> Result<Memory, NoMemory>
    requires counted { (container : ℕ) → IsCounted (option_map window_of (slice_index_or windows.now container None)) (slice_index_or arrays.now container []) }
    requires all { length arrays.now ≡ length windows.now }
    requires all_streams { length streams.now ≡ length windows.now }
    ensures { IfOk result (λ left. left ≡ all_begun memory.now 0 windows.now arrays.now streams.now (record { shapes = []; contents = [] })) }
{
    let mut left = Memory::empty(alloc);
    for (number, window) in windows.iter().enumerate() {
        let container = u32::try_from(number).map_err(|_| NoMemory)?;
        let cuts = arrays[number].as_slice();
        push_left(
            alloc,
            &mut left,
            memory,
            container,
            window,
            cuts,
            &streams[number],
        )?;
    }
    Ok(left)
}

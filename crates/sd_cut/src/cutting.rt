//! The elements of arrays in windows.
ghost use Rattle.std.specs.Prelude.{◌≡◌, ◌<◌, ◌^◌, ℕ, [], length, map, slice_index_or, IfErr, IfOk, Some};
ghost use Rattle.std.specs.List.{All};
ghost use Rattle.std.specs.Option.{option_map};
ghost use Rattle.sd_range.specs.Points.{product};
ghost use Rattle.sd_range.specs.Subset.{elements};
ghost use Rattle.sd_cut.specs.Cells.{subset_within};
ghost use Rattle.sd_cut.specs.Cutting.{IsRefusal, IsRefusalOf, IsWithin};
ghost use Rattle.sd_cut.specs.Elements.{told, told_at, AreOfWindow, AreOfWindows, IsEven, IsUntouched};
ghost use Rattle.sd_cut.specs.Overlay.{IsSmall};
ghost use Rattle.sd_cut.specs.Windowed.{window_at, window_of};

use crate::elements::CutElement;
use crate::refusal::CutError;
use crate::rows::with_rows;
use crate::window::Window;
use sd_list::Sequence;
use sd_mem::Memory;
use std::alloc::Global;

/// The elements of an array in a window, in row order, as they are now.
fn elements_within(
    alloc: Global,
    memory: &Memory,
    container: u32,
    window: &Window,
) -> Result<Vec<CutElement>, CutError>
    requires same { length window.now.shift ≡ length window.now.extents }
    ensures refused { IfErr result (IsRefusalOf memory.now container (Some (window_of window.now))) }
    ensures within { IfOk result (λ cuts. IsWithin memory.now container (Some (window_of window.now))) }
    ensures small { IfOk result (λ cuts. product window.now.extents < 2 ^ 64) }
    ensures untouched { IfOk result (λ cuts. All IsUntouched cuts.items) }
    ensures told { IfOk result (λ cuts. map told cuts.items ≡ map (told_at memory.now container) (elements (subset_within window.now.shift window.now.extents) [])) }
{
    let shift = window.shift.as_slice();
    let mut index = Vec::with_capacity(alloc, shift.len())?;
    let none = Vec::new(alloc);
    let extents = window.extents.as_slice();
    match with_rows(memory, container, shift, extents, &mut index, none) {
        Ok(cuts) => Ok(cuts),
        Err(refusal) => Err(refusal),
    }
}

/// The elements of a container in its window, if it has one.
fn elements_if(
    alloc: Global,
    memory: &Memory,
    container: u32,
    window: &Option<Window>,
) -> Result<Vec<CutElement>, CutError>
    requires even { IsEven (option_map window_of window.now) }
    ensures refused { IfErr result (IsRefusalOf memory.now container (option_map window_of window.now)) }
    ensures within { IfOk result (λ cuts. IsWithin memory.now container (option_map window_of window.now)) }
    ensures small { IfOk result (λ cuts. IsSmall (option_map window_of window.now)) }
    ensures untouched { IfOk result (λ cuts. All IsUntouched cuts.items) }
    ensures cuts { IfOk result (λ cuts. AreOfWindow memory.now container (option_map window_of window.now) cuts.items) }
{
    match window {
        None => Ok(Vec::new(alloc)),
        Some(window) => elements_within(alloc, memory, container, window),
    }
}

/// The elements of each container in its window.
pub(crate) fn all_elements(
    alloc: Global,
    memory: &Memory,
    windows: &[Option<Window>],
) -> Result<Vec<Sequence<CutElement>>, CutError>
    requires even { (container : ℕ) → IsEven (window_at windows.now container) }
    ensures refused { IfErr result (IsRefusal memory.now (window_at windows.now)) }
    ensures within { IfOk result (λ arrays. (container : ℕ) → IsWithin memory.now container (window_at windows.now container)) }
    ensures small { IfOk result (λ arrays. (container : ℕ) → IsSmall (window_at windows.now container)) }
    ensures count { IfOk result (λ arrays. length arrays.items ≡ length windows.now) }
    ensures untouched { IfOk result (λ arrays. (container : ℕ) → All IsUntouched (slice_index_or arrays.items container [])) }
    ensures arrays { IfOk result (λ arrays. AreOfWindows memory.now (window_at windows.now) arrays.items) }
{
    let mut arrays = Vec::with_capacity(alloc, windows.len())?;
    for (number, window) in windows.iter().enumerate() {
        let container = u32::try_from(number).map_err(|_| CutError::Memory)?;
        match elements_if(alloc, memory, container, window) {
            Ok(cuts) => arrays.push(Sequence::from(cuts))?,
            Err(refusal) => return Err(refusal),
        }
    }
    Ok(arrays)
}

//! The elements of an array in a window, row by row: a row's elements stand one after another in the array.
ghost use Rattle.std.specs.Prelude.{◌≡◌, ◌+ℤ◌, ◌++◌, ◌∷◌, [], length, map, neg_ℤ, pos, slice_index_or, IfErr, IfOk, OnOk};
ghost use Rattle.std.specs.List.{All};
ghost use Rattle.sd_work.specs.Memory.{elements_of};
ghost use Rattle.sd_mem.specs.mem.Cells.{array_lent};
ghost use Rattle.sd_mem.specs.mem.Shaped.{place_in, shape_at};
ghost use Rattle.sd_cut.specs.Elements.{told, IsUntouched};
ghost use Rattle.sd_cut.specs.Rows.{all_told, indices_behind, row_told, AreThere, IsMissing};

use crate::elements::{CutElement, ElementMark};
use crate::refusal::CutError;
use sd_list::NoMemory;
use sd_mem::{Elements, Memory};

/// The element of a number; 0 where there is none.
fn value_or_zero(elements: Elements, place: usize) -> i64
    ensures { result ≡ slice_index_or (elements_of (array_lent elements.entry)) place (pos 0) }
{
    match elements.get(place) {
        Some(value) => value,
        None => 0,
    }
}

/// These elements, and behind them so many of an array from a number on, as they are now.
fn with_row(
    cuts: Vec<CutElement>,
    elements: Elements,
    place: u64,
    count: u64,
) -> Result<Vec<CutElement>, NoMemory>
    requires { All IsUntouched cuts.items }
    ensures untouched { IfOk result (λ all. All IsUntouched all.items) }
    ensures told { IfOk result (λ all. map told all.items ≡ map told cuts.items ++ row_told (elements_of (array_lent elements.entry)) place count) }
{
    let end = place.checked_add(count).ok_or(NoMemory)?;
    let mut all = cuts;
    for number in place..end {
        all.push(CutElement {
            place: number,
            opening: value_or_zero(elements, number as usize),
            mark: ElementMark::Untouched,
        })?;
    }
    Ok(all)
}

/// The place of the element at an index that goes on with a number; the index stays.
fn place_behind(
    memory: &Memory,
    container: u32,
    index: &mut Vec<i128>,
    number: i128,
) -> Result<Option<u64>, NoMemory>
    ensures place { IfOk result (λ place. place ≡ place_in (shape_at memory.now container) (index.old.items ++ number ∷ [])) }
    ensures index { OnOk result (index.new.items ≡ index.old.items) }
{
    index.push(number)?;
    let place = memory.place(container, index.as_slice());
    index.pop();
    Ok(place)
}

/// The number so many behind the first one of a window.
fn number_from(shift: i128, more: u64) -> Result<i128, NoMemory>
    ensures { IfOk result (λ number. number ≡ neg_ℤ shift +ℤ pos more) }
{
    let low = 0_i128.checked_sub(shift).ok_or(NoMemory)?;
    low.checked_add(i128::from(more)).ok_or(NoMemory)
}

/// With the one element at an index.
fn with_one(
    memory: &Memory,
    container: u32,
    index: &[i128],
    cuts: Vec<CutElement>,
) -> Result<Vec<CutElement>, CutError>
    requires { All IsUntouched cuts.items }
    ensures refused { IfErr result (IsMissing memory.now container (indices_behind index.now [] [])) }
    ensures there { IfOk result (λ all. AreThere memory.now container (indices_behind index.now [] [])) }
    ensures untouched { IfOk result (λ all. All IsUntouched all.items) }
    ensures told { IfOk result (λ all. map told all.items ≡ map told cuts.items ++ all_told memory.now container (indices_behind index.now [] [])) }
{
    let elements = memory.cells(container);
    let Some(place) = memory.place(container, index) else {
        return Err(CutError::Outside(container));
    };
    if elements.get(place as usize).is_none() {
        return Err(CutError::Outside(container));
    }
    Ok(with_row(cuts, elements, place, 1)?)
}

/// With the row of a window whose indices begin with these numbers. Its elements are there where the first and the last one are.
fn with_last(
    memory: &Memory,
    container: u32,
    shift: i128,
    extent: u64,
    index: &mut Vec<i128>,
    cuts: Vec<CutElement>,
) -> Result<Vec<CutElement>, CutError>
    requires { All IsUntouched cuts.items }
    ensures refused { IfErr result (IsMissing memory.now container (indices_behind index.old.items (shift ∷ []) (extent ∷ []))) }
    ensures there { IfOk result (λ all. AreThere memory.now container (indices_behind index.old.items (shift ∷ []) (extent ∷ []))) }
    ensures untouched { IfOk result (λ all. All IsUntouched all.items) }
    ensures told { IfOk result (λ all. map told all.items ≡ map told cuts.items ++ all_told memory.now container (indices_behind index.old.items (shift ∷ []) (extent ∷ []))) }
    ensures index { OnOk result (index.new.items ≡ index.old.items) }
{
    if extent == 0 {
        return Ok(cuts);
    }
    let elements = memory.cells(container);
    let low = number_from(shift, 0)?;
    let high = number_from(shift, extent - 1)?;
    let Some(place) = place_behind(memory, container, index, low)? else {
        return Err(CutError::Outside(container));
    };
    let Some(last) = place_behind(memory, container, index, high)? else {
        return Err(CutError::Outside(container));
    };
    if elements.get(last as usize).is_none() {
        return Err(CutError::Outside(container));
    }
    Ok(with_row(cuts, elements, place, extent)?)
}

/// With the rows of a window whose indices begin with these numbers.
pub(crate) fn with_rows(
    memory: &Memory,
    container: u32,
    shift: &[i128],
    extents: &[u64],
    index: &mut Vec<i128>,
    cuts: Vec<CutElement>,
) -> Result<Vec<CutElement>, CutError>
    requires same { length shift.now ≡ length extents.now }
    requires untouched { All IsUntouched cuts.items }
    ensures refused { IfErr result (IsMissing memory.now container (indices_behind index.old.items shift.now extents.now)) }
    ensures there { IfOk result (λ all. AreThere memory.now container (indices_behind index.old.items shift.now extents.now)) }
    ensures untouched { IfOk result (λ all. All IsUntouched all.items) }
    ensures told { IfOk result (λ all. map told all.items ≡ map told cuts.items ++ all_told memory.now container (indices_behind index.old.items shift.now extents.now)) }
    ensures index { OnOk result (index.new.items ≡ index.old.items) }
{
    let Some((first, inner)) = shift.split_first() else {
        return with_one(memory, container, index.as_slice(), cuts);
    };
    let Some((extent, inner_extents)) = extents.split_first() else {
        return Err(CutError::Memory);
    };
    if inner.is_empty() {
        return with_last(memory, container, *first, *extent, index, cuts);
    }
    let mut all = cuts;
    for more in 0..*extent {
        index.push(number_from(*first, more)?)?;
        match with_rows(memory, container, inner, inner_extents, index, all) {
            Ok(cuts) => all = cuts,
            Err(refusal) => return Err(refusal),
        }
        index.pop();
    }
    Ok(all)
}

ghost use Rattle.std.specs.Prelude.{◌≡◌, ◌↔◌, ◌<◌, ◌^◌, length, IsTrue};
ghost use Rattle.sd_work.specs.Memory.{elements_of};
ghost use Rattle.sd_mem.specs.mem.Cells.{array_lent};
ghost use Rattle.sd_mem.specs.mem.Shaped.{contents_at};
ghost use Rattle.sd_cut.specs.Elements.{IsAsCut, AreAsCut, AreAllAsCut};

use sd_list::Sequence;
use sd_mem::{Elements, Memory};
use sd_num::Resolution;

/// How an element that was cut was used since.
#[derive(Clone, Copy)]
pub enum ElementMark {
    /// Nothing touched it.
    Untouched,
    /// It was read, or may have been. It may have been replaced.
    Kept,
    /// It was replaced, and not read.
    Replaced,
    /// Values were resolved with it, by this resolution alone, and it was not read.
    Gathered(Resolution),
}

/// An element of an array that was cut.
#[derive(Clone, Copy)]
pub struct CutElement {
    /// Its number in the array.
    pub place: u64,
    /// Its value when it was cut.
    pub opening: i64,
    pub mark: ElementMark,
}

/// Whether a kept element is among these as it was when it was cut.
fn is_as_cut(elements: Elements, cut: CutElement) -> bool
    ensures { IsTrue result ↔ IsAsCut (elements_of (array_lent elements.entry)) cut }
{
    match cut.mark {
        ElementMark::Untouched | ElementMark::Replaced | ElementMark::Gathered(_) => true,
        ElementMark::Kept => match elements.get(cut.place as usize) {
            Some(value) => value == cut.opening,
            None => false,
        },
    }
}

/// Whether each kept element of an array is in this memory as it was when it was cut.
fn are_as_cut(memory: &Memory, container: u32, cuts: &[CutElement]) -> bool
    ensures { IsTrue result ↔ AreAsCut (elements_of (contents_at memory.now container)) cuts.now }
{
    let elements = memory.cells(container);
    for cut in cuts {
        if !is_as_cut(elements, *cut) {
            return false;
        }
    }
    true
}

/// The same for each array, by the containers' numbers; a container that is no array has no elements.
pub(crate) fn are_all_as_cut(memory: &Memory, arrays: &[Sequence<CutElement>]) -> bool
    requires few { length arrays.now < 2 ^ 32 }
    ensures { IsTrue result ↔ AreAllAsCut memory.now 0 arrays.now }
{
    for (container, cuts) in arrays.iter().enumerate() {
        if !are_as_cut(memory, container as u32, cuts.as_slice()) {
            return false;
        }
    }
    true
}

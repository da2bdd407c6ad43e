ghost use Rattle.std.specs.Prelude.{◌≡◌, ◌<◌, ◌^◌, length};
ghost use Rattle.sd_mem.specs.mem.Shaped.{changed, element};
ghost use Rattle.sd_cut.specs.Elements.{all_changed, effect_of, effects_from, all_effects};

use crate::elements::{CutElement, ElementMark};
use sd_list::Sequence;
use sd_mem::Memory;

/// Performs what came of an element: what is left of a kept or replaced one replaces it, of a gathered one is resolved with it.
fn perform(memory: &mut Memory, container: u32, cut: CutElement, left: i64)
    ensures { memory.new ≡ changed (effect_of cut.mark (element container cut.place) left) memory.old }
{
    match cut.mark {
        ElementMark::Untouched => {}
        ElementMark::Kept | ElementMark::Replaced => memory.set(container, cut.place, None, left),
        ElementMark::Gathered(resolution) => {
            memory.set(container, cut.place, Some(resolution), left);
        }
    }
}

/// The same for each element of an array; what is left of them is in a memory of the cut, by their numbers in order.
fn perform_each(memory: &mut Memory, container: u32, cuts: &[CutElement], left: &Memory)
    ensures { memory.new ≡ all_changed (effects_from container 0 left.now cuts.now) memory.old }
{
    for (number, cut) in cuts.iter().enumerate() {
        perform(memory, container, *cut, left.cell(container, number as u64));
    }
}

/// The same for each array, by the containers' numbers.
pub(crate) fn perform_all(memory: &mut Memory, arrays: &[Sequence<CutElement>], left: &Memory)
    requires few { length arrays.now < 2 ^ 32 }
    ensures { memory.new ≡ all_changed (all_effects 0 left.now arrays.now) memory.old }
{
    for (container, cuts) in arrays.iter().enumerate() {
        perform_each(memory, container as u32, cuts.as_slice(), left);
    }
}

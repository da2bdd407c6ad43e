ghost use Rattle.std.specs.Prelude.{◌≡◌, List, Option, IfOk, OnErr};
ghost use Rattle.sd_pieces.specs.cut.Naming.{Naming};
ghost use Rattle.sd_pieces.specs.cut.Merged.{Marking};
ghost use Rattle.sd_graph.specs.ContainerParts.{Containers};
ghost use Rattle.sd_mem.specs.mem.Shaped.{Shaped};
ghost use Rattle.sd_cut.specs.declared.window.Window.{Window};
ghost use Rattle.sd_cut.specs.Windowed.{numbers_in};
ghost use Rattle.sd_part.specs.Boxes as plain;
ghost use Rattle.sd_part.specs.Store.{AreMarkedFor, IsLentFor, IsMergedBack};

use crate::boxes::NumberBox;
use sd_cut::Window;
use sd_list::NoMemory;
use sd_mem::Memory;
use std::alloc::Global;

/// What a part of a graph's work acts on: a memory, or what was cut of one.
///
/// Over a memory that it was made for a store stands for another one: the one after all that was done on the store. It stands for none over a
/// memory that has not what was read on the store.
pub trait Store {
    /// Over a memory it stands for another one.
    ghost stands: { Self → (over now : Shaped) → Type 0 };

    /// So it does while a memory is lent, with that one in its place.
    ghost stands_with: { Self → (lent over now : Shaped) → Type 0 };

    /// It was made for memories such as this one, which has these containers.
    ghost fits: { Self → Containers → (over : Shaped) → Type 0 };

    /// So it was, and this memory may be the one that is lent.
    ghost fits_with: { Self → Containers → (lent over : Shaped) → Type 0 };

    /// The windows through which the containers are reached in what is lent.
    ghost windows: { Self → List (Option Window) };

    /// What has to be as it was over a memory, by these numbers of elements, and what is stored of the rest.
    ghost marking: { Self → Naming → Marking };

    /// It has what the accesses of these boxes may touch.
    ghost holds: { Self → List plain.NumberBox → Type 0 };

    /// For these boxes it lends this memory, and is that store then.
    ghost lends: { Self → List plain.NumberBox → (lent : Shaped) → Self → Type 0 };

    /// It takes this memory back, and is that store then.
    ghost takes: { Self → (left : Shaped) → Self → Type 0 };

    /// The windows of the containers; one without a window is reached as it is.
    fn windows(&self) -> &[Option<Window>]
        ensures { result.now ≡ windows self.now };

    /// Marks what the accesses of these boxes may touch, and lends what work sees of the store. For want of memory some may be marked: where it
    /// stands for a memory then, it stood for that one before.
    fn lend(&mut self, alloc: Global, boxes: &[NumberBox]) -> Result<Memory, NoMemory>
        requires holds { holds self.old boxes.now }
        ensures windows { windows self.new ≡ windows self.old }
        ensures lends { IfOk result (λ lent. lends self.old boxes.now lent self.new) }
        ensures fits { IfOk result (λ lent. (containers : Containers) (over : Shaped) → fits self.old containers over → fits_with self.new containers lent over) }
        ensures marked { IfOk result (λ lent. (containers : Containers) → AreMarkedFor boxes.now containers (windows self.new) (marking self.new (numbers_in containers (windows self.new)))) }
        ensures stands { IfOk result (λ lent. (containers : Containers) (over now : Shaped) → fits self.old containers over → stands_with self.new lent over now
            → stands self.old over now × IsLentFor containers (windows self.new) (marking self.new (numbers_in containers (windows self.new))) lent now) }
        ensures err { OnErr result ((containers : Containers) (over now : Shaped) → fits self.old containers over → stands self.new over now → stands self.old over now) };

    /// Takes back what work left of what was lent.
    fn take_back(&mut self, left: Memory)
        ensures takes { takes self.old left self.new }
        ensures windows { windows self.new ≡ windows self.old }
        ensures stands { (containers : Containers) (lent over after : Shaped) → fits_with self.old containers lent over → stands self.new over after
            → (now : Shaped) × stands_with self.old lent over now
            × IsMergedBack containers (windows self.old) (marking self.old (numbers_in containers (windows self.old))) lent left now after };
}

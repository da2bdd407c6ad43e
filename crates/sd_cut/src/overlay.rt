ghost use Rattle.std.specs.Prelude.{◌≡◌, ◌<◌, ℕ, [], None, length, slice_index_or, IfOk, IfErr};
ghost use Rattle.std.specs.List.{All};
ghost use Rattle.sd_cut.specs.Cutting.{all_begun, is_wanted, IsCutOf, IsRefusal, IsWithin};
ghost use Rattle.sd_cut.specs.Elements.{AreOfWindows, IsUntouched, IsEven};
ghost use Rattle.sd_cut.specs.Windowed.{window_at};

use crate::cutting::all_elements;
use crate::elements::CutElement;
use crate::opening::{all_left, all_streams};
use crate::refusal::CutError;
use crate::streams::CutStream;
use crate::window::Window;
use sd_list::Sequence;
use sd_mem::Memory;
use std::alloc::Global;
use std::marker::Model;

/// What was cut of a memory, and what is left of it.
///
/// Each container with a window has the elements in it, as they were, with marks of how they were used. A stream that was cut has its values,
/// as they were. What is left of the elements, and what was pushed, is in a memory of their own: elements have the windows' numbers there.
#[derive(Drop)]
pub struct Overlay {
    pub(crate) windows: Vec<Option<Window>>,
    pub(crate) arrays: Vec<Sequence<CutElement>>,
    pub(crate) streams: Vec<Option<CutStream>>,
    pub(crate) left: Memory,
}

impl Model for Overlay {
    ghost use Rattle.sd_cut.specs.Overlaid.{Overlaid};

    ghost Value = { Overlaid };

    ghost use Rattle.sd_cut.specs.Overlay.{overlaid, AreSound};

    ghost view = { overlaid };

    ghost invariant = { AreSound };
}

impl Overlay {
    /// Cuts the windows of a memory's arrays out, and of these streams those that have no window. Nothing has touched what is cut yet.
    pub fn cut(
        alloc: Global,
        memory: &Memory,
        windows: Vec<Option<Window>>,
        streams: &[u32],
    ) -> Result<Overlay, CutError>
        requires even { (container : ℕ) → IsEven (window_at windows.items container) }
        ensures refused { IfErr result (IsRefusal memory.now (window_at windows.items)) }
        ensures within { IfOk result (λ overlay. (container : ℕ) → IsWithin memory.now container (window_at windows.items container)) }
        ensures windows { IfOk result (λ overlay. overlay.windows ≡ windows.items) }
        ensures untouched { IfOk result (λ overlay. (container : ℕ) → All IsUntouched (slice_index_or overlay.arrays container [])) }
        ensures arrays { IfOk result (λ overlay. AreOfWindows memory.now (window_at windows.items) overlay.arrays) }
        ensures streams { IfOk result (λ overlay. (container : ℕ) → container < length windows.items → IsCutOf memory.now container (is_wanted (slice_index_or windows.items container None) streams.now container) (slice_index_or overlay.streams container None)) }
        ensures count { IfOk result (λ overlay. length overlay.streams ≡ length windows.items) }
        ensures left { IfOk result (λ overlay. overlay.left ≡ all_begun memory.now 0 overlay.windows overlay.arrays overlay.streams (record { shapes = []; contents = [] })) }
    {
        let arrays = all_elements(alloc, memory, windows.as_slice())?;
        let cut = all_streams(alloc, memory, windows.as_slice(), streams)?;
        let left = all_left(
            alloc,
            memory,
            windows.as_slice(),
            arrays.as_slice(),
            cut.as_slice(),
        )?;
        if u32::try_from(arrays.len()).is_err() {
            return Err(CutError::Memory);
        }
        Ok(Overlay {
            windows,
            arrays,
            streams: cut,
            left,
        })
    }

    /// The windows, by container.
    pub fn windows(&self) -> &[Option<Window>]
        ensures { result.now ≡ self.now.windows }
    {
        self.windows.as_slice()
    }

    /// Lends what is left, for work that runs on it; a memory without containers stays.
    pub fn lend(&mut self) -> Memory
        ensures left { result ≡ self.old.left }
        ensures stays { self.new ≡ record self.old { left = record { shapes = []; contents = [] } } }
    {
        let alloc = *self.windows.allocator();
        std::mem::replace(&mut self.left, Memory::empty(alloc))
    }

    /// This is left.
    pub fn give_back(&mut self, left: Memory)
        ensures { self.new ≡ record self.old { left = left } }
    {
        self.left = left;
    }
}

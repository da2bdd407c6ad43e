//! Whether views have the dimensions that code has.
ghost use Rattle.std.specs.Prelude.{◌≡◌, ℕ, length, map, IsTrue};
ghost use Rattle.sd_work.specs.Memory.{Memories};
ghost use Rattle.sd_tcode.specs.tcode.Held.{HaveDims};
ghost use Rattle.sd_row.specs.view.View.{connectors_in};

use crate::view::views::Views;
use crate::view::window::Window;
use sd_tcode::Code;

impl Views {
    /// Whether each connector has as many dimensions as in this code.
    pub fn fit(&self, code: &Code) -> bool
        ensures { IsTrue result → (k : ℕ) (memories : Memories) → HaveDims code.now (connectors_in k memories self.now) }
    {
        let dims = code.dims();
        if dims.len() < self.inputs.len() {
            return false;
        }
        let (inputs, outputs) = dims.split_at(self.inputs.len());
        windows_fit(self.inputs.as_slice(), inputs) && extents_fit(self.outputs.as_slice(), outputs)
    }
}

/// Whether windows have so many dimensions each.
fn windows_fit(windows: &[Window], dims: &[u32]) -> bool
    ensures { IsTrue result → map (λ window. length window.extents.items) windows.now ≡ dims.now }
{
    if windows.len() != dims.len() {
        return false;
    }
    for number in 0..windows.len() {
        if windows[number].extents.len() != dims[number] as usize {
            return false;
        }
    }
    true
}

/// Whether there are so many extents each.
fn extents_fit(all: &[Vec<u64>], dims: &[u32]) -> bool
    ensures { IsTrue result → map (λ extents. length extents.items) all.now ≡ dims.now }
{
    if all.len() != dims.len() {
        return false;
    }
    for number in 0..all.len() {
        if all[number].len() != dims[number] as usize {
            return false;
        }
    }
    true
}

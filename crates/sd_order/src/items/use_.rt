ghost use Rattle.std.specs.Prelude.{◌≡◌};
ghost use Rattle.sd_wire.specs.wiring.Mentioned.{mode_of};

use sd_wire::UseMode;
use std::marker::Model;

/// A mode on one container.
#[derive(Drop)]
pub(crate) struct Use {
    container: u32,
    mode: UseMode,
}

impl Model for Use {
    ghost use Rattle.sd_graph.specs.Wiring as plain;
    ghost use Rattle.sd_wire.specs.wiring.Mentioned.{mode_of};

    ghost Value = { plain.Use };

    ghost view = { λ u. record { container = u.container; mode = mode_of u.mode } };
}

impl Use {
    pub(crate) fn new(container: u32, mode: UseMode) -> Use
        ensures { result ≡ record { container = container; mode = mode_of mode } }
    {
        Use { container, mode }
    }

    /// The same once more.
    pub(crate) fn copy_of(&self) -> Use
        ensures { result ≡ self.now }
    {
        Use {
            container: self.container,
            mode: self.mode,
        }
    }

    pub(crate) fn container(&self) -> u32
        ensures { result ≡ self.now.container }
    {
        self.container
    }

    pub(crate) fn mode(&self) -> UseMode
        ensures { mode_of result ≡ self.now.mode }
    {
        self.mode
    }
}

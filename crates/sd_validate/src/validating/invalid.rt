//! Why a graph is not valid.
ghost use Rattle.std.specs.Prelude.{◌≡◌};

use sd_graph::Path;
use sd_list::NoMemory;

/// Which rule of valid graphs fails, and the first place at which it does; or want of memory.
///
/// In this path an item stands by its number in its list, from 0, behind those of the scopes about it.
#[derive(Drop)]
pub enum Invalid {
    At { rule: u8, path: Path },
    Memory,
}

impl From<NoMemory> for Invalid {
    ghost use Rattle.std.specs.Prelude.{◌≡◌};
    ghost use Rattle.sd_validate.specs.declared.validating.invalid.Invalid.TheVariants.{Memory};

    ghost from_gives = { λ _ invalid. invalid ≡ Memory };

    fn from(_: NoMemory) -> Invalid {
        Invalid::Memory
    }
}

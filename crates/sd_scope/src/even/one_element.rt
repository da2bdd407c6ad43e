ghost use Rattle.std.specs.Prelude.{◌≡◌};
ghost use Rattle.sd_scope.specs.even.Even.{is_scalar};

use sd_range::Dim;

/// Whether a subset has an index in each dimension, and so one element.
pub fn has_one_element(dims: &[Dim]) -> bool
    ensures { result ≡ is_scalar dims.now }
{
    for dim in dims {
        if let Dim::Span(_) = dim {
            return false;
        }
    }
    true
}

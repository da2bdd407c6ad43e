//! Subsets that do not depend on a variable.
ghost use Rattle.std.specs.Prelude.{◌≡◌, true, IsTrue};
ghost use Rattle.std.specs.List.{AllByRecursion, list_all};
ghost use Rattle.sd_rows.specs.rows.Still.{is_free, is_free_dim, is_still};

use sd_graph::Link;
use sd_range::{Affine, Dim};
use sd_scope::has_one_element;

/// Whether no term of an expression has a variable.
fn is_free(affine: &Affine, variable: u32) -> bool
    ensures { result ≡ is_free variable affine.now }
{
    for (other, _) in affine.terms.as_slice() {
        if *other == variable {
            return false;
        }
    }
    true
}

/// The same of each of these expressions.
fn are_free(ends: &[Affine], variable: u32) -> bool
    ensures { result ≡ list_all (is_free variable) ends.now }
{
    for end in ends {
        if !is_free(end, variable) {
            return false;
        }
    }
    true
}

/// The same of a dimension.
fn is_free_dim(dim: &Dim, variable: u32) -> bool
    ensures { result ≡ is_free_dim variable dim.now }
{
    match dim {
        Dim::Index(at) => is_free(at, variable),
        Dim::Span(range) => {
            is_free(&range.begin, variable) && are_free(range.ends.as_slice(), variable)
        }
    }
}

/// The same of each dimension of a subset.
fn are_free_dims(dims: &[Dim], variable: u32) -> bool
    ensures { result ≡ list_all (is_free_dim variable) dims.now }
{
    for dim in dims {
        if !is_free_dim(dim, variable) {
            return false;
        }
    }
    true
}

/// Whether the subset of each link is of one element, or depends on a variable nowhere.
pub(crate) fn are_still(links: &[Link], variable: u32) -> bool
    ensures { IsTrue result → AllByRecursion (λ link. is_still variable link.memlet.subset.dims ≡ true) links.now }
{
    for link in links {
        let dims = link.memlet.subset.dims.as_slice();
        if !has_one_element(dims) && !are_free_dims(dims, variable) {
            return false;
        }
    }
    true
}

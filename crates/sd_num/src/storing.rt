//! Laws of storing, at each width and of all whole numbers.
ghost use Rattle.std.specs.Prelude.{◌≡◌, ℤ, List, map, Some, IfSome, IsPermutation};
ghost use Rattle.std.specs.List.{flat_map};
ghost use Rattle.sd_num.specs.Width.{wrapped_to, IsElement};
ghost use Rattle.sd_num.specs.Resolution.{IsCommuting, stored, stored_all, identity_of};

use crate::{Resolution, Width};

/// An element of a width is its own wrapped value.
pub fn an_element_is_its_own_wrapped_value(width: Width)
    ensures { (z : ℤ) → IsElement width z → wrapped_to width z ≡ z }
{}

/// Wrapping twice is wrapping once.
pub fn wrapping_twice_is_wrapping_once(width: Width)
    ensures { (z : ℤ) → wrapped_to width (wrapped_to width z) ≡ wrapped_to width z }
{}

/// What is stored is an element of the width.
pub fn what_is_stored_is_an_element(width: Width, by: Option<Resolution>)
    ensures { (old new : ℤ) → IsElement width (stored width by old new) }
{}

/// Two values may be stored in either order, but by the last one.
pub fn storing_commutes(width: Width, resolution: Resolution)
    ensures { IsCommuting resolution
        → (old a b : ℤ)
        → stored width (Some resolution) (stored width (Some resolution) old a) b
        ≡ stored width (Some resolution) (stored width (Some resolution) old b) a }
{}

/// An identity of a width changes no element of it.
pub fn an_identity_changes_no_element(resolution: Resolution, width: Width)
    ensures { IfSome (identity_of resolution width) (λ identity.
        (value : ℤ) → IsElement width value → stored width (Some resolution) identity value ≡ value) }
{}

/// Values stored one after another give the same in every order, but by the last one.
pub fn storing_in_any_order(width: Width, resolution: Resolution)
    ensures { IsCommuting resolution
        → (old : ℤ) (values reordered : List ℤ)
        → IsPermutation values reordered
        → stored_all width (Some resolution) old values
        ≡ stored_all width (Some resolution) old reordered }
{}

/// Partial results, which start at the identity of the width, are stored as all the values in them.
pub fn partial_results_are_stored_as_their_values(width: Width, resolution: Resolution)
    ensures one { (old identity : ℤ) (values : List ℤ)
        → IsElement width old → identity_of resolution width ≡ Some identity
        → stored width (Some resolution) old (stored_all width (Some resolution) identity values)
        ≡ stored_all width (Some resolution) old values }
    ensures several { (old identity : ℤ) (parts : List (List ℤ))
        → IsElement width old → identity_of resolution width ≡ Some identity
        → stored_all width (Some resolution) old (map (stored_all width (Some resolution) identity) parts)
        ≡ stored_all width (Some resolution) old (flat_map (λ values. values) parts) }
{}

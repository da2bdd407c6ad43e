//! What the definitions mean, in words of their own: each law is a function that does nothing.
ghost use Rattle.std.specs.Prelude.{◌≡◌, ℤ, pos, List, [], ◌∷◌, map, length, false};
ghost use Rattle.std.specs.List.{All, AllByRecursion};
ghost use Rattle.sd_range.specs.Range.{IsRange, IsEvaluableRange};
ghost use Rattle.sd_range.specs.Points.{points};
ghost use Rattle.sd_range.specs.Subset.{elements, IsDim};
ghost use Rattle.sd_range.specs.declared.subset.Dim.{Dim};
ghost use Rattle.sd_range.specs.declared.subset.Subset.{Subset};
ghost use Rattle.sd_graph.specs.Context.{index_at};
ghost use Rattle.sd_subset.specs.elements.Way.{opening, way_through, range_of, IsEvaluableDim};
ghost use Rattle.sd_subset.specs.elements.Composition.{begins, composition, has_span, outer_dims, HasUnitStep};

/// The elements of a subset are the points of the ranges of its dimensions; so a way that begins
/// again goes through the elements of the same subset.
pub fn a_subset_is_gone_through_by_its_ranges()
    ensures same { (subset : Subset) (values : List ℤ) → opening subset values ≡ way_through (map range_of subset.dims) values }
    ensures ranges { (dims : List Dim) → All IsDim dims → All IsRange (map range_of dims) }
    ensures evaluable { (dims : List Dim) (values : List ℤ) → All (IsEvaluableDim values) dims
        → All (IsEvaluableRange values) (map range_of dims) }
{}

/// The elements of a composed subset are the outer ones at the elements of the inner one, in
/// their order.
pub fn elements_of_a_composition_are_at_the_inner_indices()
    ensures { (outer inner : Subset) (values : List ℤ) → All HasUnitStep outer.dims → All IsDim inner.dims
        → length (begins (outer_dims outer.dims)) ≡ length inner.dims
        → elements (composition outer inner) values ≡ map (index_at (outer_dims outer.dims) values) (elements inner values) }
{}

/// Where an outer subset has no range its index at the one place of its connector is its own.
pub fn an_index_of_a_subset_without_a_range_is_its_own()
    ensures { (dims : List Dim) (values : List ℤ) → has_span dims ≡ false
        → index_at (outer_dims dims) values (pos 0 ∷ []) ≡ index_at dims values [] }
{}

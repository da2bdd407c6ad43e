ghost use Rattle.std.specs.Prelude.{◌≡◌, ◌-◌, ◌<◌, ℕ, ℤ, true, List, [], ◌∷◌, ◌++◌, map, length, drop, slice_get, Some};
ghost use Rattle.std.specs.List.{flat_map};
ghost use Rattle.sd_range.specs.declared.range.Range.{Range};
ghost use Rattle.sd_range.specs.Range.{counted_from, range_values};
ghost use Rattle.sd_range.specs.Points.{points};
ghost use Rattle.sd_range.specs.Variables.{with_variable, with_variables};
ghost use Rattle.sd_graph.specs.ContainerParts.{Containers};
ghost use Rattle.sd_graph.specs.declared.container.Container.{Container};
ghost use Rattle.sd_graph.specs.declared.link.Link.{Link};
ghost use Rattle.sd_graph.specs.Context.{Context, found, link_element, link_elements, link_extents};
ghost use Rattle.sd_graph.specs.Unfold.{assigned};
ghost use Rattle.sd_scope.specs.declared.scope.base.Base.{Base};
ghost use Rattle.sd_scope.specs.declared.scope.base.View.{View};
ghost use Rattle.sd_scope.specs.declared.scope.scope.Scope.{Scope};
ghost use Rattle.sd_scope.specs.scope.Standing.{found_through, reach_of};
ghost use Rattle.sd_scope.specs.even.Even.{spaced, IsEven, is_scalar};

/// While one variable takes numbers at equal distances, an access finds elements at equal distances, each of
/// which is there where the first and the last one are: in a container, through views, and from a scope.
pub fn elements_of_a_row_are_at_equal_distances()
    ensures own { (container : Container) → IsEven (found container) }
    ensures through { (views : List View) (extents : List ℕ) → IsEven (found_through views extents) }
    ensures reached { (containers : Containers) (base : Base) (scope : Scope) (number : ℕ)
        → IsEven (reach_of containers base scope number).find }
{}

/// The points of ranges are, for each point of all ranges but the last, a row of the last one's values.
/// In a row the values of the variables differ in that of the last parameter alone.
pub fn points_come_in_rows()
    ensures rows { (ranges : List Range) (last : Range) (values : List ℤ)
        → points (ranges ++ last ∷ []) values
        ≡ flat_map (λ point. map (λ number. point ++ number ∷ []) (range_values values last)) (points ranges values) }
    ensures variables { (params : List (ℕ × Range)) (last : ℕ × Range) (point : List ℤ) (number : ℤ) (values : List ℤ)
        → length params ≡ length point
        → with_variables (assigned (params ++ last ∷ []) (point ++ number ∷ [])) values
        ≡ with_variable last.0 number (with_variables (assigned params point) values) }
{}

/// So many numbers from a begin on, a step apart, are at equal distances, and so are those from each of them on.
pub fn numbers_of_a_range_are_at_equal_distances()
    ensures number { (begin step : ℤ) (count k : ℕ) → k < count
        → slice_get (counted_from begin step count) k ≡ Some (spaced begin step k) }
    ensures others { (begin step : ℤ) (count k : ℕ)
        → drop k (counted_from begin step count) ≡ counted_from (spaced begin step k) step (count - k) }
{}

/// A link to a scalar subset has one element, that at the empty place, and its connector no extents.
pub fn a_scalar_subset_has_one_element()
    ensures element { (context : Context) (link : Link) → is_scalar link.memlet.subset.dims ≡ true
        → link_elements context link ≡ link_element context link [] ∷ [] }
    ensures extents { (context : Context) (link : Link) → is_scalar link.memlet.subset.dims ≡ true
        → link_extents context link ≡ [] }
{}

//! What the definitions mean, in words of their own: each law is a function that does nothing.

ghost use Rattle.std.specs.Prelude.{◌≢◌, ◌⊎◌, ◌≡◌, ℕ, ℤ, ◌≤ℤ◌, List, [], ◌∷◌, IsTrue};
ghost use Rattle.std.specs.List.{AllByRecursion, Contains};
ghost use Rattle.sd_range.specs.Subset.{inside};
ghost use Rattle.sd_subset.specs.boxes.Hull.{hull};
ghost use Rattle.sd_range.specs.Terms.{IsNormal};
ghost use Rattle.sd_range.specs.Affine.{affine_value};
ghost use Rattle.sd_range.specs.declared.affine.Affine.{Affine};
ghost use Rattle.sd_subset.specs.boxes.Box.{Parameter, Box, with_least, with_greatest, least, greatest, replaced, IsInBox};
ghost use Rattle.sd_subset.specs.boxes.InForce.{AreFresh, IsInward, IsReordered, Ignores, IsNormalRange, AreInForce, IsNormalBox, at_point, IsPoint};
ghost use Rattle.sd_subset.specs.boxes.Apart.{AreHarmless};

/// With parameters replaced as in a lower bound an expression is at most its value, and as in an
/// upper bound at least, wherever each parameter has a value of its range.
pub fn least_and_greatest_bound_at_each_point()
    ensures least { (parameters : List Parameter) (a : Affine) (values : List ℤ)
        → IsNormal a.terms → AreInForce values parameters
        → affine_value values (least parameters a) ≤ℤ affine_value values a }
    ensures greatest { (parameters : List Parameter) (a : Affine) (values : List ℤ)
        → IsNormal a.terms → AreInForce values parameters
        → affine_value values a ≤ℤ affine_value values (greatest parameters a) }
{}

/// At a point of a map the parameters around it and its own have values of their ranges, and an index
/// in a box there is, outside of the map, in the box with the map's parameters replaced.
pub fn an_outer_box_has_what_is_touched_at_a_point()
    ensures around { (around own : List Parameter) (values point : List ℤ)
        → AreFresh around own → AreInForce values around
        → AreInForce (at_point own point values) around }
    ensures own { (around own : List Parameter) (values point : List ℤ)
        → AreFresh around own → IsPoint own values point
        → AreInForce (at_point own point values) own }
    ensures outer { (around own : List Parameter) (box : Box) (values point index : List ℤ)
        → AreFresh around own → IsNormalBox box → IsPoint own values point
        → IsInBox (at_point own point values) box index → IsInBox values (replaced own box) index }
{}

/// Harmless boxes share no index at two different points of a map, whatever values the other variables have.
pub fn harmless_boxes_share_no_index()
    ensures { (around own : List Parameter) (box other : Box) (values point later index : List ℤ)
        → AreFresh around own → AreInForce values around → IsNormalBox box → IsNormalBox other
        → AreHarmless around own box other
        → IsPoint own values point → IsPoint own values later → point ≢ later
        → IsInBox (at_point own point values) box index → IsInBox (at_point own later values) other index → ⊥ }
{}

/// A map with two different points has no two harmless boxes of which one has no dimension, as a stream's.
pub fn harmless_streams_allow_one_point()
    ensures { (around own : List Parameter) (box other : Box) (values point later : List ℤ)
        → AreFresh around own → AreInForce values around → AreHarmless around own box other
        → (box ≡ []) ⊎ (other ≡ []) → IsPoint own values point → IsPoint own values later → point ≢ later → ⊥ }
{}

/// An index that is in one of several boxes and inside the container is in their hull.
pub fn a_hull_has_what_its_boxes_have_inside()
    ensures { (extents : List ℕ) (one : Box) (boxes : List Box) (values index : List ℤ)
        → AllByRecursion IsNormalBox boxes → Contains boxes one → IsInBox values one index → IsTrue (inside extents index)
        → IsInBox values (hull extents boxes) index }
{}

/// In each order in which no range names a parameter further in, replacing parameters gives the same.
pub fn orders_of_replacing_make_no_difference()
    ensures least { (parameters others : List Parameter) (a : Affine)
        → IsNormal a.terms → IsInward parameters → IsInward others → IsReordered parameters others
        → least parameters a ≡ least others a }
    ensures greatest { (parameters others : List Parameter) (a : Affine)
        → IsNormal a.terms → IsInward parameters → IsInward others → IsReordered parameters others
        → greatest parameters a ≡ greatest others a }
{}

/// Two parameters of which neither's range names the other may be replaced in either order.
pub fn independent_parameters_may_be_replaced_in_either_order()
    ensures least { (first second : Parameter) (a : Affine)
        → IsNormal a.terms → IsNormalRange first.1 → IsNormalRange second.1
        → first.0 ≢ second.0 → Ignores first.1 second.0 → Ignores second.1 first.0
        → with_least first (with_least second a) ≡ with_least second (with_least first a) }
    ensures greatest { (first second : Parameter) (a : Affine)
        → IsNormal a.terms → IsNormalRange first.1 → IsNormalRange second.1
        → first.0 ≢ second.0 → Ignores first.1 second.0 → Ignores second.1 first.0
        → with_greatest first (with_greatest second a) ≡ with_greatest second (with_greatest first a) }
{}

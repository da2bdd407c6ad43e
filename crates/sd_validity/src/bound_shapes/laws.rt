//! What sizes keep of shapes: the law is a function that does nothing.
ghost use Rattle.std.specs.Prelude.{◌≡◌, ℕ, ℤ, List, map, true};
ghost use Rattle.std.specs.List.{AllByRecursion};
ghost use Rattle.sd_graph.specs.PlainTree.{KindTree};
ghost use Rattle.sd_graph.specs.ContainerParts.{Containers, container_at};
ghost use Rattle.sd_graph.specs.declared.link.Link.{Link};
ghost use Rattle.sd_valid.specs.BoundExpression.{bound_link};
ghost use Rattle.sd_valid.specs.BoundTree.{bound_entry, bound_kind};
ghost use Rattle.sd_validity.specs.rules.Places.{doing};
ghost use Rattle.sd_validity.specs.rules.NestedLinks.{has_shape};
ghost use Rattle.sd_validity.specs.rules.MovedShapes.{are_shapes_right};
ghost use Rattle.sd_validity.specs.bound_shapes.NormalShapes.{IsNormalAffine, HasNormalRanges, HasNormalSides};

/// A link that has the shape of a parameter has it with sizes in the place of size symbols, and so
/// have the two sides of a copy or a reduction the same shape, where expressions are in normal form.
pub fn shapes_that_fit_do_so_with_sizes()
    ensures links { (sizes : List ℤ) (inner : Containers) (number : ℕ) (link : Link)
        → AllByRecursion IsNormalAffine (container_at inner number).extents → HasNormalRanges link
        → has_shape inner number link ≡ true → has_shape (map (bound_entry sizes) inner) number (bound_link sizes link) ≡ true }
    ensures moved { (sizes : List ℤ) (kind : KindTree) → HasNormalSides kind
        → are_shapes_right (doing kind) ≡ true → are_shapes_right (doing (bound_kind sizes kind)) ≡ true }
{}

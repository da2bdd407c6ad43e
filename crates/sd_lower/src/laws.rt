ghost use Rattle.std.specs.Prelude.{◌≡◌, ℕ, ℤ, suc, ◌+◌, ◌≤◌, ◌<◌, List, sum, true};
ghost use Rattle.std.specs.List.{AllByRecursion, Contains};
ghost use Rattle.sd_range.specs.Subset.{inside};
ghost use Rattle.sd_subset.specs.boxes.Box.{IsInBox};
ghost use Rattle.sd_subset.specs.boxes.InForce.{IsNormalBox};
ghost use Rattle.sd_graph.specs.ContainerParts.{Containers, container_at, extents_of};
ghost use Rattle.sd_graph.specs.PlainTree.{KindTree};
ghost use Rattle.sd_prop.specs.propagation.Accesses.{Access, kind_accesses};
ghost use Rattle.sd_lower.specs.Hulls.{item_hulls};
ghost use Rattle.sd_lower.specs.declared.hulls.Hull.{Hull};
ghost use Rattle.sd_lower.specs.Pieces.{piece_count, values_before, values_in, values_in_each};

/// Each piece has a value, one begins where the one before it ends, and together they have all; one has at most one value more than another.
pub fn pieces_have_all_values()
    ensures some { (values workers piece : ℕ) → piece < piece_count values workers → 0 < values_in values workers piece }
    ensures first { (values workers : ℕ) → values_before values workers 0 ≡ 0 }
    ensures next { (values workers piece : ℕ) → values_before values workers piece + values_in values workers piece ≡ values_before values workers (suc piece) }
    ensures last { (values workers : ℕ) → 0 < workers → values_before values workers (piece_count values workers) ≡ values }
    ensures all { (values workers : ℕ) → 0 < workers → sum (values_in_each values workers) ≡ values }
    ensures even { (values workers piece other : ℕ) → values_in values workers piece ≤ suc (values_in values workers other) }
{}

/// Each index inside a container that is in the box of one of an item's accesses, whatever its nodes are, is in the item's hull of this
/// container, where boxes are in normal form.
pub fn hulls_have_what_accesses_touch()
    ensures { (containers : Containers) (kind : KindTree) (nodes : List ℕ) (access : Access) (values index : List ℤ)
        → AllByRecursion (λ (a : Access). IsNormalBox a.box) (kind_accesses kind containers nodes)
        → Contains (kind_accesses kind containers nodes) access → IsInBox values access.box index
        → inside (extents_of (container_at containers access.container)) index ≡ true
        → (one : Hull) × Contains (item_hulls containers kind) one × (one.container ≡ access.container) × IsInBox values one.bounds index }
{}

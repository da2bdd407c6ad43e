ghost use Rattle.std.specs.Prelude.{◌≡◌, ◌<◌, ℕ, ℤ, List, length, map, sum, true, false, Option};
ghost use Rattle.sd_range.specs.declared.range.Range.{Range};
ghost use Rattle.sd_range.specs.Points.{tuples, ranges_of, values_of_ranges, piece_of, points_of_pieces, first_values};
ghost use Rattle.sd_work.specs.Residual.{list, Points};
ghost use Rattle.sd_pieces.specs.cut.Naming.{Naming, IsOneToOne, term_named, parts_named};
ghost use Rattle.sd_pieces.specs.history.Pieces.{all_parts, IsCut};
ghost use Rattle.sd_graph.specs.ContainerParts.{Containers, container_at, extents_of};
ghost use Rattle.sd_graph.specs.PlainTree.{KindTree, map_scope, ItemTrees};
ghost use Rattle.sd_graph.specs.Context.{Context, own_reach};
ghost use Rattle.sd_graph.specs.Unfold.{point_terms, in_any_order, unfold_kind, unfold_items};
ghost use Rattle.sd_windows.specs.NamedContext.{context_named, reach_named};
ghost use Rattle.sd_windows.specs.Windows.{Window, HasDimensions, numbers_of, reach_in_window};
ghost use Rattle.sd_windows.specs.MapPieces.{HasValues, kind_piece, at_each, pieces_of_items, CutAllItems};

/// What items have to do where containers are reached by other numbers is their work by these numbers.
pub fn items_reached_by_other_numbers_are_the_work_by_them()
    ensures kind { (kind : KindTree) (naming : Naming) (depth line : ℕ) (context : Context)
        → unfold_kind kind line (context_named naming depth context) ≡ term_named naming depth (unfold_kind kind line context) }
    ensures items { (items : ItemTrees) (naming : Naming) (depth : ℕ) (context : Context)
        → unfold_items items (context_named naming depth context) ≡ parts_named naming depth (unfold_items items context) }
{}

/// Windows number the elements of containers one to one, and a container that is reached through its window is reached by these numbers.
pub fn windows_number_their_elements()
    ensures one { (containers : Containers) (windows : ℕ → Option Window)
        → ((container : ℕ) → HasDimensions (extents_of (container_at containers container)) (windows container))
        → IsOneToOne (numbers_of containers windows) }
    ensures reach { (containers : Containers) (windows : ℕ → Option Window) (container : ℕ)
        → reach_in_window containers container (windows container) ≡ reach_named (numbers_of containers windows) 0 (own_reach containers container) }
{}

/// A piece of a map whose points are in any order, and whose first parameter has so many of its values, has what the map has to do at the
/// points of these values; and the map is its pieces one after another. A sequential map is one piece, itself.
pub fn a_map_is_its_pieces()
    ensures piece { (params : List (ℕ × Range)) (private : List ℕ) (body : ItemTrees) (line : ℕ) (context : Context) (first count : ℕ)
        → HasValues context.values params first count
        → unfold_kind (kind_piece context.values first count (map_scope false params private body)) line context
        ≡ list Points in_any_order (point_terms (at_each context params private body) (tuples (piece_of first count (values_of_ranges (ranges_of params) context.values)))) }
    ensures all { (params : List (ℕ × Range)) (private : List ℕ) (body : ItemTrees) (line : ℕ) (context : Context) (counts : List ℕ)
        → 0 < length params → sum counts ≡ length (first_values (values_of_ranges (ranges_of params) context.values))
        → unfold_kind (map_scope false params private body) line context
        ≡ list Points in_any_order (all_parts (map (point_terms (at_each context params private body)) (points_of_pieces 0 counts (values_of_ranges (ranges_of params) context.values)))) }
    ensures sequential { (values : List ℤ) (first count : ℕ) (params : List (ℕ × Range)) (private : List ℕ) (body : ItemTrees)
        → kind_piece values first count (map_scope true params private body) ≡ map_scope true params private body }
{}

/// Items of which each map with its points in any order is cut into pieces that have all values of its first parameter, are cut into these pieces.
pub fn items_are_cut_into_their_pieces()
    ensures { (items : ItemTrees) (counts : ℕ → List ℕ) (item : ℕ) (context : Context)
        → CutAllItems context.values counts item items
        → IsCut item (unfold_items items context) (pieces_of_items counts item items context) }
{}

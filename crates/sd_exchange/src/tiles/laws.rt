ghost use Rattle.std.specs.Prelude.{ℕ, ℤ, Bool, List, [], map};
ghost use Rattle.std.specs.List.{AllByRecursion, flat_map};
ghost use Rattle.sd_range.specs.Points.{points, ranges_of};
ghost use Rattle.sd_range.specs.Range.{range_values};
ghost use Rattle.sd_range.specs.declared.range.Range.{Range};
ghost use Rattle.sd_graph.specs.PlainTree.{ItemTrees, map_scope, no_item, and_item};
ghost use Rattle.sd_graph.specs.Context.{Context};
ghost use Rattle.sd_graph.specs.Unfold.{point_terms};
ghost use Rattle.sd_alike.specs.alike.Lift.{as_it_is};
ghost use Rattle.sd_alike.specs.alike.SameWork.{DoSame};
ghost use Rattle.sd_alike.specs.alike.Alike.{RangeBelow, ItemsBelow};
ghost use Rattle.sd_exchange.specs.tiles.Shuffled.{Shuffled};
ghost use Rattle.sd_exchange.specs.tiles.Tiled.{AreTileable, tile_params, params_in_tile};
ghost use Rattle.sd_exchange.specs.tiles.TilePoints.{tiles_of, tile_points, point_term};

/// The points of all tiles, one tile after another, are the points of the map, each as often.
pub fn the_points_of_all_tiles_are_all_points()
    ensures { (sizes : List ℕ) (variable : ℕ) (params : List (ℕ × Range)) (values : List ℤ) → AreTileable sizes params
        → Shuffled (flat_map (tile_points (tiles_of sizes params values)) (points (ranges_of (tile_params sizes variable params)) values))
        (points (ranges_of params) values) }
{}

/// A map over tiles round a map over the values of a tile does the same as the points of its tiles,
/// one tile after another, where the variables of the tiles are named by nothing else.
pub fn a_map_over_tiles_does_the_same_as_the_points_of_its_tiles()
    ensures { (most : ℕ) (sequential : Bool) (sizes : List ℕ) (count line : ℕ) (params : List (ℕ × Range)) (private : List ℕ) (body : ItemTrees) (context : Context)
        → AreTileable sizes params → AllByRecursion (λ (param : ℕ × Range). RangeBelow count param.1) params → ItemsBelow count body
        → DoSame most as_it_is
        (point_terms (point_term params private body context)
        (flat_map (tile_points (tiles_of sizes params context.values)) (points (ranges_of (tile_params sizes count params)) context.values)))
        (point_terms (point_term (tile_params sizes count params) [] (and_item line (map_scope sequential (params_in_tile sizes count params) private body) no_item) context)
        (points (ranges_of (tile_params sizes count params)) context.values)) }
{}

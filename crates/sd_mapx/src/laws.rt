//! What holds of the graphs that rewrites give: each law is a function that does nothing.
ghost use Rattle.std.specs.Prelude.{◌≡◌, ℕ, ◌+◌, ◌^◌, ◌<◌, List, [], ◌∷◌, length, None};
ghost use Rattle.sd_graph.specs.PlainTree.{GraphTree};
ghost use Rattle.sd_validity.specs.rules.Valid.{IsValid};
ghost use Rattle.sd_safe.specs.normal.NormalForm.{IsGraphNormal};
ghost use Rattle.sd_alike.specs.alike.Rewritten.{RunsSame};
ghost use Rattle.sd_exchange.specs.maps.RunsAlike.{RunsAlike};
ghost use Rattle.sd_mapx.specs.Conditions.{lowest_failing};
ghost use Rattle.sd_mapx.specs.FreshNames.{fresh_name, IsLeastUnused};
ghost use Rattle.sd_mapx.specs.MapConditions.{collapse_conditions, expansion_conditions, interchange_conditions, tiling_conditions};
ghost use Rattle.sd_mapx.specs.Results.{collapsed_at, expanded_at, interchanged_at, tiled_at};

/// Where no condition fails, the graph with the two maps at a path as one runs as the old one.
pub fn a_collapsed_graph_runs_the_same()
    ensures { (tree : GraphTree) (path : List ℕ) → IsValid tree → lowest_failing (collapse_conditions tree path) ≡ None → RunsSame tree (collapsed_at tree path) }
{}

/// And it is valid.
pub fn a_collapsed_graph_is_valid()
    ensures { (tree : GraphTree) (path : List ℕ) → IsValid tree → lowest_failing (collapse_conditions tree path) ≡ None → IsValid (collapsed_at tree path) }
{}

/// Where no condition fails, the graph with the map at a path as two runs as the old one.
pub fn an_expanded_graph_runs_the_same()
    ensures { (tree : GraphTree) (path : List ℕ) → IsValid tree → lowest_failing (expansion_conditions tree path) ≡ None → RunsSame tree (expanded_at tree path) }
{}

/// And it is valid.
pub fn an_expanded_graph_is_valid()
    ensures { (tree : GraphTree) (path : List ℕ) → IsValid tree → lowest_failing (expansion_conditions tree path) ≡ None → IsValid (expanded_at tree path) }
{}

/// Where no condition fails, the graph with the two maps at a path interchanged ends alike as the old one, and the
/// old one as it.
pub fn an_interchanged_graph_ends_alike()
    ensures ends { (tree : GraphTree) (path : List ℕ) → IsValid tree → IsGraphNormal tree → lowest_failing (interchange_conditions tree path) ≡ None → RunsAlike tree (interchanged_at tree path) }
    ensures began { (tree : GraphTree) (path : List ℕ) → IsValid tree → IsGraphNormal tree → lowest_failing (interchange_conditions tree path) ≡ None → RunsAlike (interchanged_at tree path) tree }
{}

/// And it is valid.
pub fn an_interchanged_graph_is_valid()
    ensures { (tree : GraphTree) (path : List ℕ) → IsValid tree → lowest_failing (interchange_conditions tree path) ≡ None → IsValid (interchanged_at tree path) }
{}

/// Where no condition fails, the graph with the map at a path cut into tiles ends alike as the old one, and the old
/// one as it.
pub fn a_tiled_graph_ends_alike()
    ensures ends { (tree : GraphTree) (path sizes : List ℕ) → IsValid tree → IsGraphNormal tree → lowest_failing (tiling_conditions tree path sizes) ≡ None → RunsAlike tree (tiled_at tree path sizes) }
    ensures began { (tree : GraphTree) (path sizes : List ℕ) → IsValid tree → IsGraphNormal tree → lowest_failing (tiling_conditions tree path sizes) ≡ None → RunsAlike (tiled_at tree path sizes) tree }
{}

/// And it is valid.
pub fn a_tiled_graph_is_valid()
    ensures { (tree : GraphTree) (path sizes : List ℕ) → IsValid tree → lowest_failing (tiling_conditions tree path sizes) ≡ None → IsValid (tiled_at tree path sizes) }
{}

/// Where no condition fails, the graph with the map of one parameter at a path cut into tiles runs as the old one.
pub fn a_graph_tiled_by_one_size_runs_the_same()
    ensures { (tree : GraphTree) (path : List ℕ) (size : ℕ) → IsValid tree → lowest_failing (tiling_conditions tree path (size ∷ [])) ≡ None → RunsSame tree (tiled_at tree path (size ∷ [])) }
{}

/// The expressions of each new graph are in normal form where those of the old one are, also where a condition fails.
pub fn rewritten_graphs_are_normal()
    ensures collapsed { (tree : GraphTree) (path : List ℕ) → IsGraphNormal tree → IsGraphNormal (collapsed_at tree path) }
    ensures expanded { (tree : GraphTree) (path : List ℕ) → IsGraphNormal tree → IsGraphNormal (expanded_at tree path) }
    ensures interchanged { (tree : GraphTree) (path : List ℕ) → IsGraphNormal tree → IsGraphNormal (interchanged_at tree path) }
    ensures tiled { (tree : GraphTree) (path sizes : List ℕ) → IsGraphNormal tree → IsGraphNormal (tiled_at tree path sizes) }
{}

/// A fresh name has the least number from 1 on with which it is not in use.
pub fn a_fresh_name_has_the_least_number()
    ensures { (used : List (List ℕ)) (name : List ℕ) → length used + 1 < 10 ^ 64 → IsLeastUnused used name (fresh_name used name) }
{}

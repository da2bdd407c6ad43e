//! Ranks by levels: the law is a function that does nothing.
ghost use Rattle.std.specs.Prelude.{◌≡◌, ◌<◌, ℕ, ℤ, List, length, true};
ghost use Rattle.std.specs.List.{AllByRecursion};
ghost use Rattle.sd_graph.specs.PlainTree.{GraphTree};
ghost use Rattle.sd_graph.specs.TreeParts.{states_of_graph};
ghost use Rattle.sd_valid.specs.BoundTree.{bound_graph};
ghost use Rattle.sd_validity.specs.rules.Ranks.{namings, is_ranked, ranks_of};
ghost use Rattle.sd_validity.specs.levels.Levels.{IsLower, IsLowerBesideSizes, AreEndsPlaced};

/// Where each variable that a range of a graph names, or the begin or the end of a loop of it, has a
/// lower level than the variable that has the range, or begins and ends so, each variable of a level
/// below 7 has a rank of at most 7. With sizes it has one too where these name size symbols besides,
/// if the ends name variables of their code alone.
pub fn variables_with_levels_have_ranks()
    ensures plain { (tree : GraphTree) (level : ℕ → ℕ) → AllByRecursion (IsLower level) (namings (states_of_graph tree))
        → (number : ℕ) → level number < 7 → is_ranked (ranks_of tree) number ≡ true }
    ensures sized { (sizes : List ℤ) (tree : GraphTree) (level : ℕ → ℕ) → AreEndsPlaced (states_of_graph tree)
        → AllByRecursion (IsLowerBesideSizes (length sizes) level) (namings (states_of_graph tree))
        → (number : ℕ) → level number < 7 → is_ranked (ranks_of (bound_graph sizes tree)) number ≡ true }
{}

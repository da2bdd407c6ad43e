//! What the definitions mean, in words of their own: each law is a function that does nothing.

ghost use Rattle.std.specs.Prelude.{◌≡◌, ◌↔◌, true, false};
ghost use Rattle.std.specs.List.{Contains};
ghost use Rattle.sd_graph.specs.PlainTree.{GraphTree};
ghost use Rattle.sd_prop.specs.propagation.Accesses.{Access};
ghost use Rattle.sd_prop.specs.propagation.Scopes.{Scope, all_scopes, is_sequential};
ghost use Rattle.sd_race.specs.race.Pairs.{pair_of, IsAccepted, IsFreeOfRaces, IsGraphAccepted};
ghost use Rattle.sd_race.specs.race.Race.{Race, IsRaceOf};
ghost use Rattle.sd_race.specs.race.Tests.{is_free_of_races};

/// Each two accesses of a scope that is free of races are accepted, in either order.
pub fn each_two_accesses_of_a_scope_free_of_races_are_accepted()
    ensures { (scope : Scope) (access other : Access)
        → IsFreeOfRaces scope → Contains scope.accesses access → Contains scope.accesses other → IsAccepted (pair_of scope access other) }
{}

/// A graph is accepted exactly where each of its scopes that is no sequential map is free of races,
/// wherever it stands: the own accesses of sequential maps are not asked.
pub fn sequential_maps_are_passed_over()
    ensures { (tree : GraphTree)
        → IsGraphAccepted tree ↔ ((scope : Scope) → Contains (all_scopes tree) scope → is_sequential scope.over ≡ false → IsFreeOfRaces scope) }
{}

/// A race is told of a scope of the graph, and never of a sequential map.
pub fn no_race_is_told_of_a_sequential_map()
    ensures { (tree : GraphTree) (race : Race)
        → IsRaceOf tree race → (scope : Scope) × Contains (all_scopes tree) scope × (is_sequential scope.over ≡ false) × (race.at ≡ scope.path) }
{}

/// An accepted graph has no race.
pub fn an_accepted_graph_has_no_race()
    ensures { (tree : GraphTree) (race : Race) → IsGraphAccepted tree → IsRaceOf tree race → ⊥ }
{}

/// A graph has no two races that are told.
pub fn a_graph_has_one_race()
    ensures { (tree : GraphTree) (race other : Race) → IsRaceOf tree race → IsRaceOf tree other → race ≡ other }
{}

/// A scope passes the test exactly where it is free of races.
pub fn a_test_tells_which_scopes_are_free_of_races()
    ensures { (scope : Scope) → (is_free_of_races scope ≡ true) ↔ IsFreeOfRaces scope }
{}

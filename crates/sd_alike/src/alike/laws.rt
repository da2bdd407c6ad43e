//! Rewrites of an item that keep the order of the work: each law is a function that does nothing.
ghost use Rattle.std.specs.Prelude.{◌≡◌, ℕ, Bool, true, List, [], ◌∷◌};
ghost use Rattle.sd_work.specs.Memory.{Memories, Reference, look};
ghost use Rattle.sd_work.specs.Change.{Change, apply};
ghost use Rattle.sd_graph.specs.PlainTree.{KindTree, ItemTrees, GraphTree};
ghost use Rattle.sd_graph.specs.Context.{Context};
ghost use Rattle.sd_graph.specs.Upwards.{LeadsUpwards};
ghost use Rattle.sd_graph.specs.Unfold.{unfold_kind};
ghost use Rattle.sd_alike.specs.alike.Lift.{Lift, memories_in, reference_in, change_in};
ghost use Rattle.sd_alike.specs.alike.SameWork.{DoesSame};
ghost use Rattle.sd_alike.specs.alike.Alike.{KindBelow, NamesItsVariables, AreAlike};
ghost use Rattle.sd_alike.specs.alike.Places.{Replacing, graph_with, GraphLeads};
ghost use Rattle.sd_alike.specs.alike.Rewritten.{ReplacesSame, RunsSame};
ghost use Rattle.sd_alike.specs.alike.Tiles.{IsTileable, tiled};
ghost use Rattle.sd_alike.specs.alike.Maps.{IsCollapsible, collapsed, IsExpandable, expanded};

/// A memory that is added to a stack, and that nothing reaches, is not seen and not changed.
pub fn a_memory_that_nothing_reaches_is_not_seen()
    ensures look { (lift : Lift) (reference : Reference) (memories : Memories)
        → look (reference_in lift reference) (memories_in lift memories) ≡ look reference memories }
    ensures change { (lift : Lift) (change : Change) (memories : Memories)
        → apply (change_in lift change) (memories_in lift memories) ≡ memories_in lift (apply change memories) }
{}

/// An item does the same in two contexts that are alike: those that differ in what is shown, in
/// variables that it does not name, and in a memory that nothing reaches.
pub fn an_item_does_the_same_in_contexts_that_are_alike()
    ensures { (most : ℕ) (kind : KindTree) (line : ℕ) (lift : Lift) (count : ℕ) (context other : Context)
        → KindBelow count kind → AreAlike lift count context other
        → DoesSame most lift (unfold_kind kind line context) (unfold_kind kind line other) }
{}

/// Where an item is replaced by items that do the same, anywhere in a graph, the graph's sequential
/// run is done exactly where that of the old graph is, with the same memory and turns left.
pub fn a_graph_with_an_item_replaced_runs_the_same()
    ensures { (holds : ℕ → KindTree → Bool) (replacing : Replacing) (names : List (List ℕ))
        → ((most : ℕ) → ReplacesSame most (λ variables kind. holds variables kind ≡ true) replacing)
        → (tree : GraphTree) (path : List ℕ) → GraphLeads (λ variables kind. holds variables kind ≡ true) tree path
        → NamesItsVariables tree → RunsSame tree (graph_with replacing names tree path) }
{}

/// A graph with a map collapsed runs as the old one.
pub fn a_graph_with_a_map_collapsed_runs_the_same()
    ensures { (tree : GraphTree) (path : List ℕ) → GraphLeads IsCollapsible tree path → NamesItsVariables tree
        → RunsSame tree (graph_with collapsed [] tree path) }
{}

/// A graph with a map expanded runs as the old one.
pub fn a_graph_with_a_map_expanded_runs_the_same()
    ensures { (tree : GraphTree) (path : List ℕ) → GraphLeads IsExpandable tree path → NamesItsVariables tree
        → RunsSame tree (graph_with expanded [] tree path) }
{}

/// A graph with a map of one parameter cut into tiles runs as the old one.
pub fn a_graph_with_a_map_tiled_runs_the_same()
    ensures { (size : ℕ) (name : List ℕ) (tree : GraphTree) (path : List ℕ) → GraphLeads (IsTileable size) tree path
        → NamesItsVariables tree → RunsSame tree (graph_with (tiled size) (name ∷ []) tree path) }
{}

/// A rewritten graph names its own variables alone, as the old one. So a chain of such rewrites runs
/// as the graph that it began with.
pub fn a_rewritten_graph_names_its_variables()
    ensures collapsed { (tree : GraphTree) (path : List ℕ) → GraphLeads IsCollapsible tree path → NamesItsVariables tree
        → NamesItsVariables (graph_with collapsed [] tree path) }
    ensures expanded { (tree : GraphTree) (path : List ℕ) → GraphLeads IsExpandable tree path → NamesItsVariables tree
        → NamesItsVariables (graph_with expanded [] tree path) }
    ensures tiled { (size : ℕ) (name : List ℕ) (tree : GraphTree) (path : List ℕ)
        → GraphLeads (IsTileable size) tree path → NamesItsVariables tree
        → NamesItsVariables (graph_with (tiled size) (name ∷ []) tree path) }
{}

/// A rewritten graph has the transitions of the old one, which lead upwards as before. So each of
/// its runs has an end.
pub fn a_rewritten_graph_leads_upwards()
    ensures collapsed { (tree : GraphTree) (path : List ℕ) → GraphLeads IsCollapsible tree path → LeadsUpwards tree
        → LeadsUpwards (graph_with collapsed [] tree path) }
    ensures expanded { (tree : GraphTree) (path : List ℕ) → GraphLeads IsExpandable tree path → LeadsUpwards tree
        → LeadsUpwards (graph_with expanded [] tree path) }
    ensures tiled { (size : ℕ) (name : List ℕ) (tree : GraphTree) (path : List ℕ)
        → GraphLeads (IsTileable size) tree path → LeadsUpwards tree
        → LeadsUpwards (graph_with (tiled size) (name ∷ []) tree path) }
{}

//! What the definitions mean, in words of their own: each law is a function that does nothing.

ghost use Rattle.std.specs.Prelude.{◌≡◌, ℕ, List, Some};
ghost use Rattle.std.specs.List.{Contains};
ghost use Rattle.sd_graph.specs.PlainTree.{GraphTree};
ghost use Rattle.sd_prop.specs.propagation.Scopes.{Scope, all_scopes, scope_at};

/// The scope that is found at a path is a scope of the graph, and has this path.
pub fn the_scope_at_a_path_has_it()
    ensures path { (tree : GraphTree) (path : List ℕ) (scope : Scope) → scope_at tree path ≡ Some scope → scope.path ≡ path }
    ensures member { (tree : GraphTree) (path : List ℕ) (scope : Scope) → scope_at tree path ≡ Some scope → Contains (all_scopes tree) scope }
{}

ghost use Rattle.std.specs.Prelude.{◌≡◌, ℕ, List, nat_lt, is_some};
ghost use Rattle.sd_source.specs.nodes.Names.{Named};
ghost use Rattle.sd_source.specs.nodes.NodeLimits.{count_of, line_over, count_in_all, states_over};
ghost use Rattle.sd_source.specs.declared.nodes.node.Node.{Node};

/// A line is told exactly where the nodes of a state, or of all states of a graph, are more than the
/// limit.
pub fn a_line_is_told_exactly_where_there_are_too_many()
    ensures state { (counts : Named ℕ) (limit : ℕ) (nodes : List Node) → is_some (line_over counts limit nodes) ≡ nat_lt limit (count_of counts nodes) }
    ensures graph { (counts : Named ℕ) (limit : ℕ) (states : List (List Node)) → is_some (states_over counts limit states) ≡ nat_lt limit (count_in_all counts states) }
{}

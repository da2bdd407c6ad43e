ghost use Rattle.std.specs.Prelude.{◌≡◌, ◌+◌, ◌-◌, ◌<◌, ◌^◌, suc, min, None};
ghost use Rattle.sd_source.specs.nodes.NodeLimits as over;

use crate::nodes::node::Node;
use crate::nodes::table::Table;
use sd_list::Sequence;

/// How many nodes a node counts as: one, with those of the graph that it holds.
fn weight(counts: &Table<u32>, node: &Node) -> u64
    ensures { result ≡ over.weight counts.now node.now }
{
    let Some(name) = &node.called else {
        return 1;
    };
    match counts.find(name.as_str()) {
        Some(count) => 1 + u64::from(*count),
        None => 1,
    }
}

/// The line of the node with which these are more than what is left of a limit, else none, and
/// then less is left.
pub fn pass(counts: &Table<u32>, left: &mut u64, nodes: &[Node]) -> Option<u32>
    ensures line { result ≡ over.line_over counts.now left.old nodes.now }
    ensures left { result ≡ None → left.new ≡ left.old - over.count_of counts.now nodes.now }
{
    for node in nodes {
        let weight = weight(counts, node);
        if *left < weight {
            return Some(node.line);
        }
        *left -= weight;
    }
    None
}

/// As `pass`, for the nodes of states, one after another.
pub fn pass_states(counts: &Table<u32>, left: &mut u64, states: &[Sequence<Node>]) -> Option<u32>
    ensures line { result ≡ over.states_over counts.now left.old states.now }
    ensures left { result ≡ None → left.new ≡ left.old - over.count_in_all counts.now states.now }
{
    for nodes in states {
        let line = pass(counts, left, nodes.as_slice());
        if line.is_some() {
            return line;
        }
    }
    None
}

/// The line of the node with which a graph's nodes in all are more than a limit, and how many they
/// are, counted no further than one more than the limit.
#[tactic(auto, using(crate::proofs::nodes_lemmas::KeptLemmas::count_over, crate::proofs::nodes_lemmas::KeptLemmas::count_below))]
pub fn pass_graph(counts: &Table<u32>, limit: u32, states: &[Sequence<Node>]) -> (Option<u32>, u32)
    requires { limit + 1 < 2 ^ 32 }
    ensures line { result.0 ≡ over.states_over counts.now limit states.now }
    ensures count { result.1 ≡ min (suc limit) (over.count_in_all counts.now states.now) }
{
    let mut left = u64::from(limit);
    match pass_states(counts, &mut left, states) {
        Some(line) => (Some(line), limit + 1),
        None => (None, limit - left as u32),
    }
}

/// The lesser of two lines, where there are two.
pub fn lesser(line: Option<u32>, other: Option<u32>) -> Option<u32>
    ensures { result ≡ over.lesser line other }
{
    match (line, other) {
        (Some(line), Some(other)) => Some(line.min(other)),
        (Some(line), None) => Some(line),
        (None, other) => other,
    }
}

ghost use Rattle.std.specs.Prelude.{◌≡◌, ◌<◌, ◌+◌, ◌^◌, [], map, IfOk, OnOk};
ghost use Rattle.sd_lex.specs.TreeFold.{function_of, program_of};
ghost use Rattle.sd_source.specs.nodes.KeptCounts.{with_kept_function, kept_over};
ghost use Rattle.sd_source.specs.nodes.NodeLimits as over;
ghost use Rattle.sd_source.specs.nodes.SourceNodes as source;

use crate::nodes::counting::{lesser, pass, pass_graph};
use crate::nodes::declarations::note_all_declared;
use crate::nodes::functions::Functions;
use crate::nodes::name_set::NameSet;
use crate::nodes::node::Node;
use crate::nodes::parameters::parameters_of;
use crate::nodes::states::add_all_states;
use crate::nodes::table::{ParameterTable, Table};
use sd_lex::{Function, Program};
use sd_list::{NoMemory, Sequence};
use std::alloc::Global;

/// How many nodes there may be.
#[derive(Clone, Copy, Debug, PartialEq, Eq)]
pub struct Limits {
    /// Of one state, nested graphs aside.
    pub state: u32,
    /// In all, those of nested graphs counted at each call.
    pub all: u32,
}

/// The limits of the language.
const NODE_LIMITS: Limits = Limits {
    state: 1024,
    all: 65_536,
};

/// The least line at which a source passes a limit on nodes: 1,024 of one state, or 65,536 of one
/// function's graph in all, where those of a nested graph are counted at each call.
///
/// The source need not be whole: of statements of which a later line was refused, those that are
/// there count.
#[tactic(auto, using(crate::proofs::nodes_lemmas::KeptLemmas::kept_is_exact))]
pub fn first_over(alloc: Global, program: &Program) -> Result<Option<u32>, NoMemory>
    ensures { IfOk result (λ line. line ≡ over.nodes_over over.node_limits (program_of program.now)) }
{
    over_in(alloc, NODE_LIMITS, &program.functions)
}

/// The least line at which one of these functions passes a limit.
fn over_in(alloc: Global, limits: Limits, functions: &[Function]) -> Result<Option<u32>, NoMemory>
    requires { limits.all + 1 < 2 ^ 32 }
    ensures { IfOk result (λ line. line ≡ kept_over limits (record { parameters = []; counts = [] }) (map function_of functions.now)) }
{
    let mut before = Functions {
        parameters: Table::new(alloc),
        counts: Table::new(alloc),
    };
    let mut least = None;
    for function in functions {
        let line = over_in_next(alloc, limits, &mut before, function)?;
        least = lesser(least, line);
    }
    Ok(least)
}

/// The least line at which a function passes a limit. It is then known to those behind it.
fn over_in_next(
    alloc: Global,
    limits: Limits,
    before: &mut Functions,
    function: &Function,
) -> Result<Option<u32>, NoMemory>
    requires { limits.all + 1 < 2 ^ 32 }
    ensures line { IfOk result (λ line. line ≡ over.graph_over limits before.old.counts (source.states_of before.old.parameters (function_of function.now))) }
    ensures before { OnOk result (before.new ≡ with_kept_function limits before.old (function_of function.now)) }
{
    let states = states_of(alloc, &before.parameters, function)?;
    let parameters = parameters_of(alloc, &before.parameters, function)?;
    let state_line = any_state_over(alloc, limits.state, &states);
    let (line, count) = pass_graph(&before.counts, limits.all, &states);
    before.parameters.put(alloc, &function.name, parameters)?;
    before.counts.put(alloc, &function.name, count)?;
    Ok(lesser(state_line, line))
}

/// The nodes of each state of a function's graph.
fn states_of(
    alloc: Global,
    functions: &ParameterTable,
    function: &Function,
) -> Result<Vec<Sequence<Node>>, NoMemory>
    ensures { IfOk result (λ states. states.items ≡ source.states_of functions.now (function_of function.now)) }
{
    let mut own = NameSet::new(alloc);
    note_all_declared(alloc, &function.arguments, &mut own)?;
    note_all_declared(alloc, &function.body, &mut own)?;
    let mut states = Vec::new(alloc);
    add_all_states(alloc, functions, &own, &function.body, &mut states)?;
    Ok(states)
}

/// The least line at which a state has too many nodes, nested graphs aside.
#[tactic(auto, using(crate::proofs::nodes_lemmas::KeptLemmas::lesser_assoc))]
fn any_state_over(alloc: Global, limit: u32, states: &[Sequence<Node>]) -> Option<u32>
    ensures { result ≡ over.any_state_over limit states.now }
{
    let alone = Table::new(alloc);
    let mut least = None;
    for nodes in states {
        let mut left = u64::from(limit);
        least = lesser(least, pass(&alone, &mut left, nodes.as_slice()));
    }
    least
}

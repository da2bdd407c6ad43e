ghost use Rattle.std.specs.Prelude.{◌≡◌, ◌≢◌, Ok, Err, IfOk, IfErr};
ghost use Rattle.sd_graph.specs.TreeFold.{graph_tree};
ghost use Rattle.sd_valid.specs.Binding.{binding};

use crate::error::{BindError, text_of};
use crate::limits::count_graph;
use crate::sizes::{Sizes, first_bad, first_missing, symbols_of_graph, values_of_symbols};
use crate::tree;
use sd_graph::{Bound, Sdfg};
use std::alloc::Global;

/// The graph with these sizes in the place of its size symbols, in each expression of it and of
/// its nested graphs.
///
/// `MissingSize` comes before `BadSize` and that before `OverLimit`. Elements are counted over
/// the containers of the graph and then those of its nested graphs, at each call.
pub fn bind(alloc: Global, graph: &Sdfg, sizes: &Sizes) -> Result<Bound, BindError>
    ensures ok { IfOk result (λ bound. binding (graph_tree graph.now) sizes.now.values ≡ Ok (graph_tree bound.graph)) }
    ensures err { IfErr result (λ error. error ≢ BindError.Memory → binding (graph_tree graph.now) sizes.now.values ≡ Err error) }
{
    let symbols = symbols_of_graph(graph);
    if let Some(name) = first_missing(symbols, sizes) {
        return Err(BindError::MissingSize(text_of(alloc, name)?));
    }
    if let Some(name) = first_bad(symbols, sizes) {
        return Err(BindError::BadSize(text_of(alloc, name)?));
    }
    let values = values_of_symbols(alloc, symbols, sizes)?;
    let bound = tree::graph(alloc, values.as_slice(), graph)?;
    count_graph(alloc, &bound, 0)?;
    Ok(Bound { graph: bound })
}

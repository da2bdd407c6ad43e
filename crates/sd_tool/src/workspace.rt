ghost use Rattle.std.specs.Prelude.{◌≡◌, ◌≤◌, ◌^◌, Ok, length, IfOk, IfErr};
ghost use Rattle.sd_graph.specs.TreeFold.{graph_tree};
ghost use Rattle.sd_part.specs.Whole.{IsOfWidths};
ghost use Rattle.sd_tool.specs.Answer.{source_refused, arrays_refused};
ghost use Rattle.sd_tool.specs.Ending.{answer_of, Refuses};
ghost use Rattle.sd_tool.specs.Work as definition;
ghost use Rattle.sd_tool.specs.Workspace.{work_of};

use crate::ending::Ending;
use sd_elab::elaborate;
use sd_graph::{Bound, Sdfg};
use sd_json::read_arrays;
use sd_mem::Memory;
use sd_parse::parse;
use sd_valid::bind;
use std::alloc::Global;

/// A bound graph and a memory of it.
#[derive(Drop)]
pub(crate) struct Workspace {
    pub(crate) bound: Bound,
    pub(crate) memory: Memory,
}

/// The graph of a source of at most 2^20 bytes, or its first error. The text and the program are let go as
/// soon as they are done with.
pub(crate) fn source_graph<'a>(alloc: Global, text: Vec<u8>) -> Result<Sdfg, Ending<'a>>
    requires { length text.items ≤ 2 ^ 20 }
    ensures graph { IfOk result (λ graph. definition.source_graph text.items ≡ Ok (graph_tree graph)) }
    ensures refused { IfErr result (λ ending. Refuses source_refused (definition.source_graph text.items) (answer_of ending)) }
{
    let program = parse(alloc, text.as_slice())?;
    drop(text);
    Ok(elaborate(alloc, &program)?)
}

/// The graph with the sizes of an arrays file, and the memory with its arrays; or the first that refuses: the
/// file, its sizes or its shapes. The file and the graph are let go as soon as they are done with.
pub(crate) fn prepared<'a>(
    alloc: Global,
    graph: Sdfg,
    file: Vec<u8>,
) -> Result<Workspace, Ending<'a>>
    ensures work { IfOk result (λ opened. definition.prepared (graph_tree graph) file.items ≡ Ok (work_of opened)) }
    ensures widths { IfOk result (λ opened. IsOfWidths opened.memory) }
    ensures refused { IfErr result (λ ending. Refuses arrays_refused (definition.prepared (graph_tree graph) file.items) (answer_of ending)) }
{
    let given = read_arrays(alloc, file.as_slice(), &graph)?;
    drop(file);
    let sizes = given.sizes(alloc)?;
    let bound = bind(alloc, &graph, &sizes)?;
    drop(graph);
    let memory = given.into_memory(alloc, &bound)?;
    Ok(Workspace { bound, memory })
}

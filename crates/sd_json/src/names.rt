ghost use Rattle.std.specs.Prelude.{◌≡◌, map, string_bytes, bytes_eq, IfOk};
ghost use Rattle.std.specs.List.{IsDistinct};
ghost use Rattle.sd_graph.specs.TreeFold.{graph_tree};
ghost use Rattle.sd_json.specs.Names.{names_in};

use sd_graph::Sdfg;
use sd_list::{NoMemory, Sequence, Text};
use std::alloc::Global;

/// The names that a graph looks for in an arrays file: those of its size symbols in source order
/// and of its arguments in the order of the signature.
#[derive(Drop)]
pub struct Names {
    pub symbols: Sequence<Text>,
    pub arguments: Sequence<Text>,
}

/// The same names once more, as texts.
fn copied(alloc: Global, names: &[String]) -> Result<Sequence<Text>, NoMemory>
    ensures { IfOk result (λ copy. copy ≡ map string_bytes names.now) }
{
    let mut copy = Vec::with_capacity(alloc, names.len())?;
    for name in names {
        copy.push(Text::from(name.as_str().to_string(alloc)?))?;
    }
    Ok(Sequence::from(copy))
}

impl Names {
    /// The names that a graph looks for.
    pub(crate) fn of(alloc: Global, graph: &Sdfg) -> Result<Names, NoMemory>
        ensures names { IfOk result (λ names. names ≡ names_in (graph_tree graph.now)) }
        ensures distinct { IfOk result (λ names. IsDistinct bytes_eq names.arguments) }
    {
        let variables = graph.variables.as_slice();
        let symbols = variables.len().min(graph.symbols as usize);
        let containers = graph.containers.keys().as_slice();
        let arguments = containers.len().min(graph.arguments as usize);
        Ok(Names {
            symbols: copied(alloc, &variables[..symbols])?,
            arguments: copied(alloc, &containers[..arguments])?,
        })
    }
}

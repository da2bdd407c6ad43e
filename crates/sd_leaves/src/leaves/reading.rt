ghost use Rattle.std.specs.Prelude.{◌≡◌, [], ◌∷◌, option_map, IfOk};
ghost use Rattle.sd_work.specs.Exit.{all_seen};
ghost use Rattle.sd_graph.specs.TreeFold.{graph_tree};
ghost use Rattle.sd_graph.specs.Context.{link_elements};
ghost use Rattle.sd_mem.specs.machine.Stack.{reference_of};
ghost use Rattle.sd_scope.specs.scope.Standing.{context_of};
ghost use Rattle.sd_leaves.specs.leaves.Read.{links_seen};

use sd_graph::{Link, Sdfg};
use sd_list::{NoMemory, Sequence};
use sd_mem::{Address, Machine};
use sd_scope::{Base, Indices, Scope, cell_at, has_one_element, link_cell};
use std::alloc::Global;

/// The values of the elements of each link, in row order; `None` where one is outside.
pub(crate) fn values_of_links(
    alloc: Global,
    links: &[Link],
    graph: &Sdfg,
    base: &Base,
    scope: &Scope,
    machine: &Machine,
) -> Result<Option<Sequence<Sequence<i64>>>, NoMemory>
    ensures { IfOk result (λ read. read ≡ links_seen (context_of (graph_tree graph.now) base.now scope.now) links.now machine.now.memories) }
{
    let mut read = Vec::with_capacity(alloc, links.len())?;
    for link in links {
        match values_of_link(alloc, link, graph, base, scope, machine)? {
            Some(values) => read.push(values)?,
            None => return Ok(None),
        }
    }
    Ok(Some(Sequence::from(read)))
}

/// The values of the elements of a link, in row order; `None` where one is outside, and none behind that is looked up. Where it is one
/// element, that is looked up at once.
fn values_of_link(
    alloc: Global,
    link: &Link,
    graph: &Sdfg,
    base: &Base,
    scope: &Scope,
    machine: &Machine,
) -> Result<Option<Sequence<i64>>, NoMemory>
    ensures { IfOk result (λ values. values ≡ all_seen (link_elements (context_of (graph_tree graph.now) base.now scope.now) link.now) machine.now.memories) }
{
    if has_one_element(link.memlet.subset.dims.as_slice()) {
        let cell = link_cell(alloc, graph, base, scope, link, &[])?;
        return value_of_cell(alloc, cell, machine);
    }
    let mut values = Vec::new(alloc);
    let mut indices = Indices::of(alloc, scope, link)?;
    'indices: while indices.next() {
        match cell_at(
            alloc,
            graph,
            base,
            scope,
            link.memlet.container,
            indices.at(),
        )? {
            Some(cell) => values.push(machine.look(cell))?,
            None => return Ok(None),
        }
    }
    Ok(Some(Sequence::from(values)))
}

/// The value of an element; `None` where that is outside.
fn value_of_cell(
    alloc: Global,
    cell: Option<Address>,
    machine: &Machine,
) -> Result<Option<Sequence<i64>>, NoMemory>
    ensures { IfOk result (λ values. values ≡ all_seen (option_map reference_of cell ∷ []) machine.now.memories) }
{
    let Some(cell) = cell else {
        return Ok(None);
    };
    let value = vec![in alloc; machine.look(cell); 1]?;
    Ok(Some(Sequence::from(value)))
}

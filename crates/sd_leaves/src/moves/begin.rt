//! What a copy has to do, and the elements that an instance reads.
ghost use Rattle.std.specs.Prelude.{◌≡◌, ◌++◌, map, None, option_map, IfOk, OnOk};
ghost use Rattle.std.specs.List.{flat_map, zip};
ghost use Rattle.sd_work.specs.Leaf.{copy_of};
ghost use Rattle.sd_graph.specs.TreeFold.{graph_tree};
ghost use Rattle.sd_graph.specs.Context.{link_elements};
ghost use Rattle.sd_mem.specs.machine.Stack.{reference_of};
ghost use Rattle.sd_scope.specs.scope.Standing.{context_of};
ghost use Rattle.sd_leaves.specs.leaves.Cells.{transferring};
ghost use Rattle.sd_leaves.specs.moves.Left.{all_told, doing_left};

use crate::moves::doing::Doing;
use crate::moves::todo::Todo;
use sd_graph::{Link, Sdfg};
use sd_list::NoMemory;
use sd_mem::Address;
use sd_scope::{Base, Scope, link_cells};
use std::alloc::Global;

/// The elements of links, one link after another, each in row order.
pub(crate) fn cells_of_links(
    alloc: Global,
    links: &[Link],
    graph: &Sdfg,
    base: &Base,
    scope: &Scope,
) -> Result<Vec<Option<Address>>, NoMemory>
    ensures { IfOk result (λ cells. map (option_map reference_of) cells.items ≡ flat_map (link_elements (context_of (graph_tree graph.now) base.now scope.now)) links.now) }
{
    let mut cells = Vec::new(alloc);
    for link in links {
        let more = link_cells(alloc, graph, base, scope, link)?;
        cells.extend_from_slice(more.as_slice())?;
    }
    Ok(cells)
}

/// Each first element written to the second one; what one of the lists has more is left.
fn transfers(
    alloc: Global,
    from: &[Option<Address>],
    to: &[Option<Address>],
) -> Result<Vec<Todo>, NoMemory>
    ensures { IfOk result (λ todos. all_told todos.items ≡ map (transferring None) (zip from.now to.now)) }
{
    let mut todos = Vec::new(alloc);
    for number in 0..from.len().min(to.len()) {
        todos.push(Todo::Transfer {
            from: from[number],
            to: to[number],
            by: None,
        })?;
    }
    Ok(todos)
}

impl Doing {
    /// A copy that begins, where a scope stands: each element of `from`, in row order, to the one of `to` at the same position.
    pub fn copy(
        alloc: Global,
        from: &Link,
        to: &Link,
        graph: &Sdfg,
        base: &Base,
        scope: &Scope,
    ) -> Result<Doing, NoMemory>
        ensures { IfOk result (λ copy. doing_left copy ≡ copy_of (zip (link_elements (context_of (graph_tree graph.now) base.now scope.now) from.now) (link_elements (context_of (graph_tree graph.now) base.now scope.now) to.now))) }
    {
        let sources = link_cells(alloc, graph, base, scope, from)?;
        let targets = link_cells(alloc, graph, base, scope, to)?;
        Ok(Doing {
            todo: transfers(alloc, sources.as_slice(), targets.as_slice())?,
            done: 0,
        })
    }
}

//! What is drawn of a state, and how one thing more is drawn.
ghost use Rattle.std.specs.Prelude.{◌≡◌, ◌++◌, length, map, IfOk, OnOk};
ghost use Rattle.sd_wire.specs.wiring.Drawing as definition;

use crate::wiring::mentioned::{has_number, items_conflict};
use crate::wiring::mode::Use;
use crate::wiring::passing::Passing;
use sd_graph::{Edge, Node, NodeKind};
use sd_list::{NoMemory, Sequence};
use std::alloc::Global;

/// An item that is drawn: its last node, and what it does.
#[derive(Drop)]
pub struct Earlier {
    pub last: u32,
    pub uses: Sequence<Use>,
}

/// What is known of the list of items that is drawn at the moment.
///
/// `current` has containers with their access nodes, the current one of each last. `leaving` has the edges that
/// go to the exit of the list's scope, with its entry in the exit's place.
#[derive(Drop)]
pub struct Row {
    pub current: Sequence<(u32, u32)>,
    pub leaving: Sequence<Edge>,
    pub earlier: Sequence<Earlier>,
}

impl Row {
    /// Nothing yet. Takes no memory.
    pub(crate) fn new(alloc: Global) -> Row
        ensures { result ≡ definition.empty_row }
    {
        Row {
            current: Sequence::new(alloc),
            leaving: Sequence::new(alloc),
            earlier: Sequence::new(alloc),
        }
    }

    /// The current access node of a container.
    fn current_node(&self, container: u32) -> Option<u32>
        ensures { result ≡ definition.current_node self.now.current container }
    {
        let mut found = None;
        for (other, node) in self.current.as_slice() {
            if *other == container {
                found = Some(*node);
            }
        }
        found
    }
}

/// The nodes and edges of a state so far.
#[derive(Drop)]
pub struct Drawing {
    pub nodes: Sequence<Node>,
    pub edges: Sequence<Edge>,
    pub row: Row,
}

impl Drawing {
    /// Nothing drawn. Takes no memory.
    pub(crate) fn new(alloc: Global) -> Drawing
        ensures { result ≡ definition.blank }
    {
        Drawing {
            nodes: Sequence::new(alloc),
            edges: Sequence::new(alloc),
            row: Row::new(alloc),
        }
    }

    /// The number of the next node.
    pub(crate) fn next(&self) -> Result<u32, NoMemory>
        ensures { IfOk result (λ next. next ≡ length self.now.nodes) }
    {
        u32::try_from(self.nodes.len()).map_err(|_| NoMemory)
    }

    /// One more node.
    #[inline(never)]
    pub(crate) fn push_node(
        &mut self,
        scope: Option<u32>,
        kind: NodeKind,
        line: u32,
    ) -> Result<(), NoMemory>
        ensures { OnOk result (self.new ≡ definition.with_node scope kind line self.old) }
    {
        self.nodes.push(Node { scope, kind, line })
    }

    /// A new access node, now the current one of its container.
    fn push_access(&mut self, scope: Option<u32>, line: u32, container: u32) -> Result<(), NoMemory>
        ensures { OnOk result (self.new ≡ definition.with_access scope line self.old container) }
    {
        let node = self.next()?;
        self.push_node(scope, NodeKind::Access(container), line)?;
        self.row.current.push((container, node))
    }

    /// New access nodes.
    pub(crate) fn push_accesses(
        &mut self,
        scope: Option<u32>,
        line: u32,
        containers: &[u32],
    ) -> Result<(), NoMemory>
        ensures { OnOk result (self.new ≡ definition.with_accesses scope line self.old containers.now) }
    {
        for container in containers {
            self.push_access(scope, line, *container)?;
        }
        Ok(())
    }

    /// Those of containers that have no current access node.
    pub(crate) fn without_node(
        &self,
        alloc: Global,
        containers: &[u32],
    ) -> Result<Vec<u32>, NoMemory>
        ensures { IfOk result (λ found. found.items ≡ definition.without_node self.now.row.current containers.now) }
    {
        let mut found = Vec::new(alloc);
        for container in containers {
            if self.row.current_node(*container).is_none() {
                found.push(*container)?;
            }
        }
        Ok(found)
    }

    /// From where a container comes into an item of a list.
    fn source_of(&self, scope: Option<u32>, own: &[u32], container: u32) -> Option<u32>
        ensures { result ≡ definition.source_of scope own.now self.now.row container }
    {
        if has_number(own, container) {
            self.row.current_node(container)
        } else {
            scope
        }
    }

    /// One more edge into a node.
    fn push_edge_in(
        &mut self,
        scope: Option<u32>,
        own: &[u32],
        to: u32,
        passing: Passing,
    ) -> Result<(), NoMemory>
        ensures { OnOk result (self.new ≡ definition.with_edge_in scope own.now to self.old passing) }
    {
        match self.source_of(scope, own, passing.container) {
            None => Ok(()),
            Some(from) => self.edges.push(edge_for(passing, from, to)),
        }
    }

    /// Edges into a node.
    pub(crate) fn push_edges_in(
        &mut self,
        scope: Option<u32>,
        own: &[u32],
        to: u32,
        all: Vec<Passing>,
    ) -> Result<(), NoMemory>
        ensures { OnOk result (self.new ≡ definition.with_edges_in scope own.now to self.old all.items) }
    {
        for passing in all {
            self.push_edge_in(scope, own, to, passing)?;
        }
        Ok(())
    }

    /// One more edge to the current access node of a container.
    fn push_edge_to(&mut self, from: u32, passing: Passing) -> Result<(), NoMemory>
        ensures { OnOk result (self.new ≡ definition.with_edge_to (definition.current_node self.old.row.current passing.container) from passing self.old) }
    {
        match self.row.current_node(passing.container) {
            None => Ok(()),
            Some(to) => self.edges.push(edge_for(passing, from, to)),
        }
    }

    /// One more edge that leaves a scope.
    fn push_leaving(
        &mut self,
        scope: Option<u32>,
        from: u32,
        passing: Passing,
    ) -> Result<(), NoMemory>
        ensures { OnOk result (self.new ≡ definition.with_leaving scope from passing self.old) }
    {
        match scope {
            None => Ok(()),
            Some(entry) => self.row.leaving.push(edge_for(passing, from, entry)),
        }
    }

    /// One more edge out of a node.
    fn push_edge_out(
        &mut self,
        scope: Option<u32>,
        own: &[u32],
        from: u32,
        passing: Passing,
    ) -> Result<(), NoMemory>
        ensures { OnOk result (self.new ≡ definition.with_edge_out scope own.now from self.old passing) }
    {
        if has_number(own, passing.container) {
            self.push_edge_to(from, passing)
        } else {
            self.push_leaving(scope, from, passing)
        }
    }

    /// Edges out of a node.
    pub(crate) fn push_edges_out(
        &mut self,
        scope: Option<u32>,
        own: &[u32],
        from: u32,
        all: Vec<Passing>,
    ) -> Result<(), NoMemory>
        ensures { OnOk result (self.new ≡ definition.with_edges_out scope own.now from self.old all.items) }
    {
        for passing in all {
            self.push_edge_out(scope, own, from, passing)?;
        }
        Ok(())
    }

    /// The order edges to an item's first node; the item is then an earlier one.
    pub(crate) fn push_order(
        &mut self,
        first: u32,
        last: u32,
        uses: Vec<Use>,
    ) -> Result<(), NoMemory>
        ensures { OnOk result (self.new ≡ definition.with_order first last uses.items self.old) }
    {
        push_order_edges(
            &mut self.edges,
            self.row.earlier.as_slice(),
            first,
            uses.as_slice(),
        )?;
        let uses = Sequence::from(uses);
        self.row.earlier.push(Earlier { last, uses })
    }

    /// A scope's entry, behind which nothing of its body is drawn yet. Gives back what was known of the list in
    /// which the scope stands.
    pub(crate) fn enter(
        &mut self,
        alloc: Global,
        scope: Option<u32>,
        kind: NodeKind,
        line: u32,
    ) -> Result<Row, NoMemory>
        ensures drawing { OnOk result (self.new ≡ definition.entered scope kind line self.old) }
        ensures row { IfOk result (λ row. row ≡ self.old.row) }
    {
        self.push_node(scope, kind, line)?;
        Ok(std::mem::replace(&mut self.row, Row::new(alloc)))
    }

    /// A scope's exit, to which all that leaves its body goes. Takes back what `enter` gave.
    pub(crate) fn leave(
        &mut self,
        alloc: Global,
        scope: Option<u32>,
        entry: u32,
        line: u32,
        outer: Row,
    ) -> Result<(), NoMemory>
        ensures { OnOk result (self.new ≡ definition.left scope entry line outer self.old) }
    {
        let exit = self.next()?;
        self.push_node(scope, NodeKind::Exit(entry), line)?;
        let body = std::mem::replace(&mut self.row, outer);
        push_ending(&mut self.edges, exit, body.leaving)
    }
}

/// Adds edges that end at a node.
fn push_ending(edges: &mut Sequence<Edge>, to: u32, leaving: Sequence<Edge>) -> Result<(), NoMemory>
    ensures { OnOk result (edges.new ≡ edges.old ++ map (definition.ending_at to) leaving) }
{
    for edge in leaving.into_vec() {
        edges.push(Edge { to, ..edge })?;
    }
    Ok(())
}

/// Adds the order edges from the last nodes of those earlier items that conflict with one.
fn push_order_edges(
    edges: &mut Sequence<Edge>,
    earlier: &[Earlier],
    to: u32,
    uses: &[Use],
) -> Result<(), NoMemory>
    ensures { OnOk result (edges.new ≡ edges.old ++ definition.order_edges earlier.now to uses.now) }
{
    for item in earlier {
        if items_conflict(item.uses.as_slice(), uses) {
            edges.push(Edge {
                from: item.last,
                to,
                link: None,
                container: None,
            })?;
        }
    }
    Ok(())
}

/// An edge for what passes between two nodes.
fn edge_for(passing: Passing, from: u32, to: u32) -> Edge
    ensures { result ≡ definition.edge_for passing from to }
{
    let Passing { container, link } = passing;
    let container = match link {
        None => Some(container),
        Some(_) => None,
    };
    Edge {
        from,
        to,
        link,
        container,
    }
}

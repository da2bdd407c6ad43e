//! The number of the nodes of a list of items: each law is a function that does nothing.
ghost use Rattle.std.specs.Prelude.{◌≡◌, ◌+◌, ℕ, List, length, map, Option};
ghost use Rattle.sd_graph.specs.PlainTree.{ItemTrees};
ghost use Rattle.sd_graph.specs.ContainerParts.{Containers};
ghost use Rattle.sd_wire.specs.declared.wiring.drawing.Drawing.{Drawing};
ghost use Rattle.sd_wire.specs.wiring.Drawing.{with_items};
ghost use Rattle.sd_source.specs.nodes.Items.{Name, Items};
ghost use Rattle.sd_source.specs.nodes.Names.{Named};
ghost use Rattle.sd_source.specs.nodes.Nodes.{with_nodes};
ghost use Rattle.sd_source.specs.nodes.NodeLimits.{count_of};
ghost use Rattle.sd_source.specs.declared.nodes.node.Node.{Node};
ghost use Rattle.sd_made.specs.counted.Drawn as drawn;
ghost use Rattle.sd_made.specs.counted.Counted as counted;

/// The items of a list are drawn with as many nodes more as are defined.
pub fn items_are_drawn_with_so_many_nodes()
    ensures { (items : ItemTrees) (containers : Containers) (scope : Option ℕ) (own : List ℕ) (drawing : Drawing)
        → length (with_items items containers scope own drawing).nodes
        ≡ length drawing.nodes + drawn.list_nodes items containers own (map (λ entry. entry.0) drawing.row.current) }
{}

/// The items of a source's list have as many nodes more as are defined, those of the graphs of called
/// functions counted.
pub fn items_of_a_source_have_so_many_nodes()
    ensures { (counts : Named ℕ) (own current : List Name) (made : List Node) (items : Items)
        → count_of counts (with_nodes own current made items)
        ≡ count_of counts made + (counted.list_nodes own current items + counted.list_nested counts items) }
{}

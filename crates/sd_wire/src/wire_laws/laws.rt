ghost use Rattle.std.specs.Prelude.{◌≡◌, ◌++◌, ℕ, List, map, Option};
ghost use Rattle.sd_graph.specs.PlainTree.{ItemTrees, KindTree};
ghost use Rattle.sd_graph.specs.ContainerParts.{Containers};
ghost use Rattle.sd_graph.specs.Wiring.{kind_uses, uses_of_each};
ghost use Rattle.sd_wire.specs.declared.wiring.drawing.Drawing.{Drawing};
ghost use Rattle.sd_wire.specs.wiring.Drawing.{order_edges, with_item, with_items};
ghost use Rattle.sd_wire.specs.wire_laws.Order.{first_node, without_order};

/// The last edges that are drawn of an item are its order edges, which come from those earlier items of its list that
/// conflict with it; and what is kept of the items of a list is what each of them does, in their order.
///
/// So an order edge leads from one item of a list to a later one exactly where what they do conflicts, and by
/// `before_is_the_closure_of_conflicts` of `sd_graph` the paths of such edges are the order of items.
pub fn order_edges_come_from_the_items_that_conflict()
    ensures edges { (kind : KindTree) (containers : Containers) (scope : Option ℕ) (own : List ℕ) (line : ℕ) (drawing : Drawing)
        → (with_item kind containers scope own line drawing).edges
        ≡ (without_order kind containers scope own line drawing).edges
        ++ order_edges drawing.row.earlier (first_node kind containers scope own line drawing) (kind_uses kind containers) }
    ensures items { (items : ItemTrees) (containers : Containers) (scope : Option ℕ) (own : List ℕ) (drawing : Drawing)
        → map (λ item. item.uses) (with_items items containers scope own drawing).row.earlier
        ≡ map (λ item. item.uses) drawing.row.earlier ++ uses_of_each items containers }
{}

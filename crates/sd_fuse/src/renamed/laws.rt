//! What items with variables renamed do: each law is a function that does nothing.
ghost use Rattle.std.specs.Prelude.{◌≡◌, ℤ, List};
ghost use Rattle.sd_graph.specs.PlainTree.{ItemTrees};
ghost use Rattle.sd_graph.specs.ContainerParts.{Containers};
ghost use Rattle.sd_graph.specs.Wiring.{item_uses};
ghost use Rattle.sd_graph.specs.Context.{Context};
ghost use Rattle.sd_graph.specs.Unfold.{unfold_items};
ghost use Rattle.sd_fuse.specs.renamed.Renamed.{Names, values_renamed, at_values, items_renamed, ItemsSpare};

/// Items with variables renamed have the same work to do as the items where each old name has the value of its new
/// one, where no parameter of a map in them is an old or a new name.
pub fn renamed_items_do_the_same_at_the_values_of_the_old_names()
    ensures { (names : Names) (items : ItemTrees) (context : Context) (values : List ℤ) → ItemsSpare names items
        → unfold_items (items_renamed names items) (at_values context values)
        ≡ unfold_items items (at_values context (values_renamed names values)) }
{}

/// They use the same containers in the same modes.
pub fn renamed_items_use_the_same()
    ensures { (names : Names) (items : ItemTrees) (containers : Containers)
        → item_uses (items_renamed names items) containers ≡ item_uses items containers }
{}

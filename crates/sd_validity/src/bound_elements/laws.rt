//! How many elements a bound graph has: the law is a function that does nothing.
ghost use Rattle.std.specs.Prelude.{◌≡◌, Ok};
ghost use Rattle.sd_graph.specs.PlainTree.{GraphTree};
ghost use Rattle.sd_valid.specs.SizeValues.{NamedSizes};
ghost use Rattle.sd_valid.specs.Binding.{binding};
ghost use Rattle.sd_validity.specs.rules.Failing.{Holds};
ghost use Rattle.sd_validity.specs.bound_elements.Elements.{elements_rule};

/// In a graph that was bound to sizes, whatever it was made of, no extent is negative, each container has
/// at most 2^24 elements, and all have at most 2^26, those of nested graphs counted each time.
pub fn containers_of_a_bound_graph_have_few_elements()
    ensures { (tree bound : GraphTree) (sizes : NamedSizes) → binding tree sizes ≡ Ok bound → Holds elements_rule bound }
{}

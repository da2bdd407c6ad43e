//! What the definitions mean, in words of their own: each law is a function that does nothing.
ghost use Rattle.std.specs.Prelude.{◌≡◌, ◌↔◌, ◌<◌, ℕ, ℤ, List, Some, length};
ghost use Rattle.serde_json.specs.Data.{Data};
ghost use Rattle.sd_range.specs.Points.{product};
ghost use Rattle.sd_graph.specs.PlainTree.{GraphTree};
ghost use Rattle.sd_graph.specs.TreeParts.{containers_of};
ghost use Rattle.sd_graph.specs.InPlace.{arguments_of, ArgumentsComeFirst};
ghost use Rattle.sd_graph.specs.GraphMemory.{IsMemoryOf};
ghost use Rattle.sd_mem.specs.mem.Shaped.{Shaped, contents_at, IsArray};
ghost use Rattle.sd_json.specs.NestedLists.{numbers_of, shape_of};
ghost use Rattle.sd_json.specs.Shape.{HasShape};

/// A value has the shape that is found exactly where it is a leaf and that is empty, or it is a
/// list whose items all have one shape and that is its length and then this one, or it is an empty
/// list and that is 0 alone.
pub fn a_shape_is_that_of_all_items()
    ensures { (value : Data) (shape : List ℕ) → (shape_of value ≡ Some shape) ↔ HasShape value shape }
{}

/// A value that has a shape and whole numbers at its leaves has as many of them as the product of
/// the numbers of the shape.
pub fn a_shape_has_a_number_for_each_element()
    ensures { (value : Data) (shape : List ℕ) (numbers : List ℤ) → shape_of value ≡ Some shape → numbers_of value ≡ Some numbers → length numbers ≡ product shape }
{}

/// In a memory of a graph whose arguments are its first containers, each argument is an array.
pub fn arguments_are_arrays()
    ensures { (tree : GraphTree) (memory : Shaped) → ArgumentsComeFirst (arguments_of tree) (containers_of tree) → IsMemoryOf tree memory.contents → (argument : ℕ) → argument < arguments_of tree → IsArray (contents_at memory argument) }
{}

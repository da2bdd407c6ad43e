//! What the definitions mean, in words of their own: each law is a function that does nothing.
ghost use Rattle.std.specs.Prelude.{◌≡◌, ◌<◌, ℕ, ℤ, pos, Bool, true, false, List, [], map, length, Option, Some, slice_index_or};
ghost use Rattle.sd_range.specs.Points.{product};
ghost use Rattle.sd_range.specs.Subset.{inside};
ghost use Rattle.sd_graph.specs.PlainTree.{GraphTree};
ghost use Rattle.sd_graph.specs.TreeParts.{containers_of};
ghost use Rattle.sd_graph.specs.ContainerParts.{container_at, is_stream, is_argument};
ghost use Rattle.sd_graph.specs.InForce.{is_private};
ghost use Rattle.sd_graph.specs.Context.{own_reach, reference_at};
ghost use Rattle.sd_graph.specs.Unfold.{opening_memory};
ghost use Rattle.sd_graph.specs.GraphMemory.{IsMemoryOf, AreArgumentsGiven};
ghost use Rattle.sd_mem.specs.mem.Shaped.{Shaped, element_at, place_in, shape_at, IsHere};
ghost use Rattle.sd_mem.specs.mem.GraphContents.{shapes_of, zeros_of, opened_with};
ghost use Rattle.sd_mem.specs.mem.Strides.{strides, strided};

/// The place of an index that is inside is the sum of each stride times its number; the stride of
/// a dimension is the product of the extents behind it.
pub fn a_place_is_the_sum_of_strides_times_numbers()
    ensures { (shape : List ℕ) (index : List ℤ) → inside shape index ≡ true
        → (place : ℕ) × (place_in shape index ≡ Some place) × (pos place ≡ strided (strides shape) index) }
{}

/// Where a memory has the extents of a graph's containers, the element of an array at an index is
/// the one that the graph's work reaches there.
pub fn an_element_is_the_one_that_work_reaches()
    ensures { (tree : GraphTree) (memory : Shaped) (container : ℕ) (index : List ℤ)
        → memory.shapes ≡ shapes_of (containers_of tree)
        → is_stream (container_at (containers_of tree) container).kind ≡ false
        → container < length (containers_of tree)
        → element_at memory container index ≡ reference_at (own_reach (containers_of tree) container) index }
{}

/// A memory of zeros is one of its graph, and so is an opening memory whose arguments are given as
/// many elements as they have. In such a memory each array that is not private is here.
pub fn memories_of_a_graph_are_whole()
    ensures zeros { (tree : GraphTree) → IsMemoryOf tree (zeros_of tree).contents }
    ensures opened { (tree : GraphTree) (given : List (List ℤ)) → AreArgumentsGiven tree given
        → IsMemoryOf tree (opened_with tree given).contents }
    ensures here { (tree : GraphTree) (memory : Shaped) (container : ℕ) → memory.shapes ≡ shapes_of (containers_of tree)
        → IsMemoryOf tree memory.contents → container < length (containers_of tree)
        → is_stream (container_at (containers_of tree) container).kind ≡ false
        → is_private (container_at (containers_of tree) container).kind ≡ false
        → IsHere memory container }
{}

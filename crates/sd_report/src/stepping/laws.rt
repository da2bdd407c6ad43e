//! What runs by workers ask of a memory: the law is a function that does nothing.
ghost use Rattle.std.specs.Prelude.{◌≡◌, List, Ok};
ghost use Rattle.sd_graph.specs.PlainTree.{GraphTree};
ghost use Rattle.sd_mem.specs.mem.Shaped.{Shaped};
ghost use Rattle.sd_part.specs.Whole.{IsOfWidths};
ghost use Rattle.sd_json.specs.GivenMemory.{memory_given};
ghost use Rattle.sd_json.specs.declared.array.Array.{Array};

/// The memory that a graph opens with, where arrays are given, has elements and values of its containers' widths, whatever the arrays hold.
pub fn given_memories_are_of_their_widths()
    ensures { (tree : GraphTree) (arrays : List Array) (memory : Shaped) → memory_given tree arrays ≡ Ok memory → IsOfWidths memory }
{}

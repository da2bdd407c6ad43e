//! Each law is a function that does nothing.
ghost use Rattle.std.specs.Prelude.{◌≡◌, ℕ, ℤ, List, Some};
ghost use Rattle.sd_graph.specs.GraphMemory.{IsMemoryOf};
ghost use Rattle.sd_graph.specs.PlainTree.{GraphTree};
ghost use Rattle.sd_graph.specs.TreeFold.{PlainItem};
ghost use Rattle.sd_graph.specs.TreeParts.{containers_of};
ghost use Rattle.sd_mem.specs.mem.GraphContents.{shapes_of};
ghost use Rattle.sd_mem.specs.mem.Shaped.{Shaped};
ghost use Rattle.sd_cut.specs.Fits.{with_left};
ghost use Rattle.sd_cut.specs.Using.{Agrees};
ghost use Rattle.sd_part.specs.Marking.{with_boxes};
ghost use Rattle.sd_safe.specs.normal.NormalForm.{IsGraphNormal};
ghost use Rattle.sd_safe.specs.pieces.ItemPieces.{state_items};
ghost use Rattle.sd_validity.specs.rules.Valid.{IsValid};
ghost use Rattle.sd_windows.specs.MapPieces.{kind_piece};
ghost use Rattle.sd_piece.specs.Held.{HasTouched};
ghost use Rattle.sd_piece.specs.Piece.{boxes_of, item_of};
ghost use Rattle.sd_piece.specs.Run.{IsCutFrom};
ghost use Rattle.sd_piece.specs.declared.piece.Piece.{Piece};
ghost use Rattle.sd_piece.specs.declared.piece.PieceAt.{PieceAt};

/// A memory of a valid graph has what each piece of an item of the graph's own states touches: so none is refused as foreign.
pub fn a_memory_of_a_graph_has_what_its_pieces_touch()
    ensures { (tree : GraphTree) (memory : Shaped) (values : List ℤ) (state number first count : ℕ) (item : PlainItem) (nodes : List ℕ)
        → IsValid tree → IsGraphNormal tree → memory.shapes ≡ shapes_of (containers_of tree) → IsMemoryOf tree memory.contents
        → item_of (state_items tree state) number ≡ Some item
        → HasTouched (containers_of tree) memory (boxes_of (containers_of tree) values (kind_piece values first count item.1) nodes) }
{}

/// What a piece left, as `run_piece` tells it of what `cut_piece` gives, agrees with the memory that the piece was cut of, whatever its work left.
pub fn what_a_piece_left_agrees_with_its_memory()
    ensures { (tree : GraphTree) (memory left : Shaped) (values : List ℤ) (at : PieceAt) (piece : Piece)
        → IsCutFrom tree memory values at piece → Agrees (with_left left (with_boxes piece.boxes.items piece.cut)) memory }
{}

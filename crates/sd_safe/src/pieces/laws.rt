ghost use Rattle.std.specs.Prelude.{◌≡◌, ◌≢◌, ◌++◌, ℕ, ℤ, List, [], map, Some, false, slice_get};
ghost use Rattle.sd_work.specs.Memory.{Memory, Memories};
ghost use Rattle.sd_work.specs.Exit.{Values};
ghost use Rattle.sd_work.specs.Step.{Done};
ghost use Rattle.sd_work.specs.Run.{Left, Sequential};
ghost use Rattle.sd_work.specs.OrderedPools.{HasOrderedPools};
ghost use Rattle.sd_work.specs.BigStep.{big_step, reached};
ghost use Rattle.sd_work.specs.Touch.{Touches};
ghost use Rattle.sd_confluence.specs.Safe.{MayInterleave};
ghost use Rattle.sd_pieces.specs.cut.Merged.{Marking, IsPrepared};
ghost use Rattle.sd_pieces.specs.history.History.{is_in_history, MayFollow, History};
ghost use Rattle.sd_pieces.specs.history.Pieces.{graph_of_items};
ghost use Rattle.sd_pieces.specs.history.DoneWithin.{IsDoneWithin};
ghost use Rattle.sd_graph.specs.PlainTree.{ItemTrees, GraphTree};
ghost use Rattle.sd_graph.specs.TreeParts.{containers_of};
ghost use Rattle.sd_graph.specs.Context.{Context, own_reach};
ghost use Rattle.sd_graph.specs.Wiring.{before};
ghost use Rattle.sd_graph.specs.Unfold.{unfold_kind, unfold_items};
ghost use Rattle.sd_windows.specs.MapPieces.{pieces_of_items};
ghost use Rattle.sd_prop.specs.propagation.Accesses.{kind_accesses};
ghost use Rattle.sd_race.specs.race.Pairs.{IsGraphAccepted};
ghost use Rattle.sd_validity.specs.rules.Valid.{IsValid};
ghost use Rattle.sd_safe.specs.normal.NormalForm.{IsGraphNormal};
ghost use Rattle.sd_race.specs.cover.Fit.{IsFit, AreFit};
ghost use Rattle.sd_safe.specs.pieces.ItemPieces.{ItemPiece, item_pieces, piece_work, state_items, state_place, work_in_pieces, IsStateInPieces};
ghost use Rattle.sd_safe.specs.pieces.Keeping.{LeavesAlone, HaveKept, AsksNoMore};

/// What the pieces of items have to do is that of parts of the items, and a part of a fit item is fit.
pub fn pieces_are_parts_of_their_items()
    ensures work { (counts : ℕ → List ℕ) (item : ℕ) (items : ItemTrees) (context : Context)
        → pieces_of_items counts item items context ≡ map (piece_work context) (item_pieces context.values counts item items) }
    ensures fit { (values : List ℤ) (counts : ℕ → List ℕ) (item : ℕ) (items : ItemTrees) (number : ℕ) (piece : ItemPiece)
        → AreFit items [] → slice_get (item_pieces values counts item items) number ≡ Some piece → IsFit piece.kind [] }
{}

/// The items of a state of a valid, accepted graph, as they stand in its run, may interleave over each memory, with their pools in order. So what is told of
/// histories of such items is told of them: where their sequential run is done within a budget, they are items that are done so.
pub fn items_of_a_state_may_interleave()
    ensures place { (tree : GraphTree) (state : ℕ) (values : Values)
        → ((state_place tree state values).containers ≡ containers_of tree)
        × ((state_place tree state values).values ≡ values)
        × ((number : ℕ) → (state_place tree state values).reach number ≡ own_reach (state_place tree state values).containers number) }
    ensures safe { (tree : GraphTree) (state : ℕ) (values : Values) (own : Memory) → IsValid tree → IsGraphNormal tree → IsGraphAccepted tree
        → MayInterleave (graph_of_items (before (state_place tree state values).containers (state_items tree state)) (unfold_items (state_items tree state) (state_place tree state values)) own) }
    ensures pools { (tree : GraphTree) (state : ℕ) (values : Values) (own : Memory)
        → HasOrderedPools 0 (graph_of_items (before (state_place tree state values).containers (state_items tree state)) (unfold_items (state_items tree state) (state_place tree state values)) own) }
    ensures done { (tree : GraphTree) (state : ℕ) (values : Values) (counts : ℕ → List ℕ) (own : Memory) (turns : ℕ) (left : Left)
        → IsStateInPieces tree state counts (state_place tree state values)
        → Sequential (graph_of_items (before (state_place tree state values).containers (state_items tree state)) (unfold_items (state_items tree state) (state_place tree state values)) own) turns (Done left)
        → IsDoneWithin (work_in_pieces counts (state_items tree state) (state_place tree state values)) (unfold_items (state_items tree state) (state_place tree state values)) own turns left }
{}

/// Of two pieces of a state of a valid, accepted graph, of which neither's item is before the other's, the one leaves alone what the accesses of
/// the other keep or drain, in their boxes. So this is as it was where the one is done.
pub fn pieces_leave_alone_what_another_one_keeps()
    ensures alone { (tree : GraphTree) (state : ℕ) (counts : ℕ → List ℕ) (context : Context) (number other : ℕ) (piece second : ItemPiece) (nodes : List ℕ)
        → IsStateInPieces tree state counts context → number ≢ other
        → slice_get (item_pieces context.values counts 0 (state_items tree state)) number ≡ Some piece
        → slice_get (item_pieces context.values counts 0 (state_items tree state)) other ≡ Some second
        → before context.containers (state_items tree state) piece.item second.item ≡ false
        → before context.containers (state_items tree state) second.item piece.item ≡ false
        → LeavesAlone context.containers context.values (kind_accesses piece.kind context.containers nodes) (Touches (unfold_kind second.kind second.line context)) }
    ensures stays { (tree : GraphTree) (state : ℕ) (counts : ℕ → List ℕ) (context : Context) (number other : ℕ) (piece second : ItemPiece) (nodes : List ℕ)
        (most turns left : ℕ) (memories after : Memories)
        → IsStateInPieces tree state counts context → number ≢ other
        → slice_get (item_pieces context.values counts 0 (state_items tree state)) number ≡ Some piece
        → slice_get (item_pieces context.values counts 0 (state_items tree state)) other ≡ Some second
        → before context.containers (state_items tree state) piece.item second.item ≡ false
        → before context.containers (state_items tree state) second.item piece.item ≡ false
        → big_step (unfold_kind second.kind second.line context) most memories turns ≡ reached after left
        → HaveKept context.containers context.values (kind_accesses piece.kind context.containers nodes) memories after }
{}

/// What a piece may read or replace, and the streams that it takes from, stay as they were while other pieces are done: from a history on
/// which it may follow to each longer one that has it not. So what was cut for the piece from the memory then is still prepared for the memory now.
pub fn what_a_piece_keeps_stays_until_it_is_done()
    ensures stays { (tree : GraphTree) (state : ℕ) (counts : ℕ → List ℕ) (context : Context) (number : ℕ) (piece : ItemPiece) (nodes : List ℕ)
        (most more : ℕ) (opening memories after : Memories) (history later : List ℕ) (turns left : ℕ)
        → IsStateInPieces tree state counts context
        → slice_get (item_pieces context.values counts 0 (state_items tree state)) number ≡ Some piece
        → History (work_in_pieces counts (state_items tree state) context) most opening history memories turns
        → MayFollow (work_in_pieces counts (state_items tree state) context) history number (piece_work context piece)
        → History (work_in_pieces counts (state_items tree state) context) more opening (history ++ later) after left
        → is_in_history number (history ++ later) ≡ false
        → HaveKept context.containers context.values (kind_accesses piece.kind context.containers nodes) memories after }
    ensures prepared { (tree : GraphTree) (state : ℕ) (counts : ℕ → List ℕ) (context : Context) (number : ℕ) (piece : ItemPiece) (nodes : List ℕ)
        (most more : ℕ) (opening memories after : Memories) (history later : List ℕ) (turns left : ℕ) (marking : Marking) (cut : Memories)
        → IsStateInPieces tree state counts context
        → slice_get (item_pieces context.values counts 0 (state_items tree state)) number ≡ Some piece
        → History (work_in_pieces counts (state_items tree state) context) most opening history memories turns
        → MayFollow (work_in_pieces counts (state_items tree state) context) history number (piece_work context piece)
        → History (work_in_pieces counts (state_items tree state) context) more opening (history ++ later) after left
        → is_in_history number (history ++ later) ≡ false
        → AsksNoMore context.containers context.values (kind_accesses piece.kind context.containers nodes) marking
        → IsPrepared marking cut memories → IsPrepared marking cut after }
{}

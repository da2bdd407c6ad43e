ghost use Rattle.std.specs.Prelude.{◌≡◌, ◌≢◌, ◌+◌, ◌≤◌, ℕ, Bool, List, [], ◌∷◌, ◌++◌, length, Some};
ghost use Rattle.sd_work.specs.Memory.{Memory, Memories};
ghost use Rattle.sd_work.specs.Move.{Fault};
ghost use Rattle.sd_work.specs.Residual.{Term, Terms};
ghost use Rattle.sd_work.specs.Step.{Done, Faulted, Spent};
ghost use Rattle.sd_work.specs.Touch.{Touch, Touches};
ghost use Rattle.sd_work.specs.BigStep.{reached, big_step, big_parts, and_then};
ghost use Rattle.sd_work.specs.BigRun.{big_run};
ghost use Rattle.sd_work.specs.Run.{Left, Run, Sequential};
ghost use Rattle.sd_work.specs.OrderedPools.{HasOrderedPools};
ghost use Rattle.sd_confluence.specs.Safe.{IsSafe, MayInterleave};
ghost use Rattle.sd_confluence.specs.Alike.{AreAlike};
ghost use Rattle.sd_pieces.specs.course.Reading.{AgreeOn, apply_all};
ghost use Rattle.sd_pieces.specs.course.Shape.{stack_shape};
ghost use Rattle.sd_pieces.specs.course.Course.{course};
ghost use Rattle.sd_pieces.specs.cut.Merged.{Marking, IsMarked, IsPrepared, IsMerged, AreElementsOfWidth};
ghost use Rattle.sd_pieces.specs.cut.Naming.{Naming, IsOneToOne, term_named, IsTouchNamed, AreMemoriesNamed};
ghost use Rattle.sd_pieces.specs.history.Pieces.{Piece, Work, and_parts, IsCut, graph_of_items, graph_of_pieces};
ghost use Rattle.sd_pieces.specs.history.History.{MayFollow, History, HasAll};
ghost use Rattle.sd_pieces.specs.history.DoneWithin.{IsDoneWithin};

/// A history has one memory and one number of turns, whatever number of transitions and takes is allowed; and where more are allowed it stays one.
pub fn a_history_has_one_end<P>()
    ensures one { (work : Work P) (most more : ℕ) (opening : Memories) (history : List ℕ) (memories others : Memories) (turns number : ℕ)
        → History work most opening history memories turns → History work more opening history others number
        → (memories ≡ others) × (turns ≡ number) }
    ensures allowed { (work : Work P) (most more : ℕ) (opening : Memories) (history : List ℕ) (memories : Memories) (turns : ℕ) → most ≤ more
        → History work most opening history memories turns → History work more opening history memories turns }
{}

/// A history keeps the shape of the stack of memories that it opens with, and so has as many memories. Where the elements of the
/// outermost one are ones of their containers' widths, they stay so.
pub fn a_history_keeps_its_memories<P>()
    ensures shape { (work : Work P) (most : ℕ) (opening : Memories) (history : List ℕ) (memories : Memories) (turns : ℕ)
        → History work most opening history memories turns → stack_shape memories ≡ stack_shape opening }
    ensures count { (work : Work P) (most : ℕ) (opening : Memories) (history : List ℕ) (memories : Memories) (turns : ℕ)
        → History work most opening history memories turns → length memories ≡ length opening }
    ensures elements { (work : Work P) (most : ℕ) (opening : Memories) (history : List ℕ) (memories : Memories) (turns : ℕ)
        → History work most opening history memories turns → AreElementsOfWidth opening → AreElementsOfWidth memories }
{}

/// A piece that was done from an earlier memory, and that may follow on a history, makes it longer where the memory of
/// the history agrees with the earlier one on what the piece read: its changes, made to this memory, are its
/// work. A fault, or a want of turns, is also that of the piece from this memory.
pub fn a_piece_that_read_the_same_may_follow<P>()
    ensures done { (work : Work P) (most : ℕ) (opening earlier memories : Memories) (history : List ℕ) (turns number : ℕ) (piece : Piece P) (allowed left : ℕ)
        → History work most opening history memories turns → MayFollow work history number piece
        → (course piece.term most earlier allowed).end ≡ Some (Done left)
        → AgreeOn (course piece.term most earlier allowed).readings earlier memories
        → (spent : ℕ) × (allowed ≡ spent + left)
        × History work most opening (history ++ number ∷ []) (apply_all (course piece.term most earlier allowed).changes memories) (turns + spent) }
    ensures fault { (term : Term P) (most : ℕ) (earlier memories : Memories) (turns : ℕ) (fault : Fault P)
        → (course term most earlier turns).end ≡ Some (Faulted fault)
        → AgreeOn (course term most earlier turns).readings earlier memories
        → big_step term most memories turns ≡ Some (Faulted fault) }
    ensures spent { (term : Term P) (most : ℕ) (earlier memories : Memories) (turns : ℕ)
        → (course term most earlier turns).end ≡ Some Spent
        → AgreeOn (course term most earlier turns).readings earlier memories
        → big_step term most memories turns ≡ Some Spent }
{}

/// A piece that was done on a cut, and that may follow on a history, makes it longer where the memory of the history has what the
/// cut was to have: this memory with what was left on the cut, and as many turns more as were spent.
pub fn a_piece_done_on_a_cut_may_follow<P>()
    ensures { (work : Work P) (most : ℕ) (opening memories : Memories) (history : List ℕ) (turns number : ℕ) (piece : Piece P)
        (naming : Naming) (marking : Marking) (earlier cut left_there : Memories) (allowed left : ℕ)
        → History work most opening history memories turns → MayFollow work history number piece
        → IsOneToOne naming → ((touch : Touch) → Touches piece.term touch → IsTouchNamed naming 0 touch)
        → ((touch : Touch) → Touches piece.term touch → IsMarked marking touch)
        → IsPrepared marking earlier memories → AreMemoriesNamed naming 0 earlier cut
        → big_step (term_named naming 0 piece.term) most cut allowed ≡ reached left_there left
        → (after : Memories) × (spent : ℕ) × (allowed ≡ spent + left) × IsMerged naming marking left_there memories after
        × History work most opening (history ++ number ∷ []) after (turns + spent) }
{}

/// Items that are cut into pieces come to the same from left to right, whatever their order is; for two runs of parts, one after the other,
/// are the parts of both.
pub fn items_in_pieces_come_to_the_same<P>()
    ensures parts { (parts others : Terms P) (most : ℕ) (memories : Memories) (turns : ℕ)
        → big_parts (and_parts parts others) most memories turns ≡ and_then (big_parts parts most memories turns) (big_parts others most) }
    ensures items { (work : Work P) (before : ℕ → ℕ → Bool) (items : Terms P) (own : Memory) (most turns : ℕ) → IsCut 0 items work.pieces
        → big_run (graph_of_pieces work own) most turns ≡ big_run (graph_of_items before items own) most turns }
{}

/// Items that may interleave may do so in pieces too, and their pools stay in order.
pub fn items_that_may_interleave_may_do_so_in_pieces<P>()
    ensures safe { (work : Work P) (items : Terms P) (own : Memory) → IsCut 0 items work.pieces
        → MayInterleave (graph_of_items work.before items own) → MayInterleave (graph_of_pieces work own) }
    ensures pools { (work : Work P) (items : Terms P) (own : Memory) → IsCut 0 items work.pieces
        → IsSafe (graph_of_items work.before items own) → HasOrderedPools 0 (graph_of_items work.before items own)
        → HasOrderedPools 0 (graph_of_pieces work own) }
{}

/// A history that has all pieces is a run: the graph whose items are the pieces, where it may interleave,
/// is done by any picks, the sequential run included, with a memory alike to the history's and as many turns.
pub fn a_whole_history_is_a_run<P>()
    ensures { (work : Work P) (most : ℕ) (own memory : Memory) (history : List ℕ) (spent left : ℕ) (picks : List ℕ)
        → MayInterleave (graph_of_pieces work own) → HasAll work history
        → History work most (own ∷ []) history (memory ∷ []) spent
        → (end : Left) × Run (graph_of_pieces work own) (spent + left) picks (Done end) × AreAlike memory end.memory × (end.turns ≡ left) }
{}

/// A history that has all pieces of items that may interleave, with pools in order, ends as the items' sequential run: that is done, with a
/// memory alike to the history's and as many turns.
pub fn a_whole_history_ends_as_the_sequential_run<P>()
    ensures { (work : Work P) (items : Terms P) (most : ℕ) (own memory : Memory) (history : List ℕ) (spent left : ℕ)
        → IsCut 0 items work.pieces
        → MayInterleave (graph_of_items work.before items own) → HasOrderedPools 0 (graph_of_items work.before items own)
        → HasAll work history → History work most (own ∷ []) history (memory ∷ []) spent
        → (end : Left) × Sequential (graph_of_items work.before items own) (spent + left) (Done end) × AreAlike memory end.memory × (end.turns ≡ left) }
{}

/// Where the sequential run of items is done within a budget, no history of their pieces wants more turns, and each piece that may follow
/// on one is done: it makes the history longer. From the history's memory it has no fault, whatever is allowed, and the turns that are left are enough.
pub fn a_piece_of_a_done_run_is_done<P>()
    ensures turns { (work : Work P) (items : Terms P) (own : Memory) (budget : ℕ) (left : Left) (most : ℕ) (history : List ℕ) (memories : Memories) (turns : ℕ)
        → IsDoneWithin work items own budget left → History work most (own ∷ []) history memories turns → turns + left.turns ≤ budget }
    ensures done { (work : Work P) (items : Terms P) (own : Memory) (budget : ℕ) (left : Left) (most : ℕ) (history : List ℕ) (memories : Memories) (turns number : ℕ) (piece : Piece P)
        → IsDoneWithin work items own budget left → History work most (own ∷ []) history memories turns → MayFollow work history number piece
        → (more : ℕ) × (after : Memories) × (spent : ℕ) × History work more (own ∷ []) (history ++ number ∷ []) after (turns + spent) }
    ensures fault { (work : Work P) (items : Terms P) (own : Memory) (budget : ℕ) (left : Left) (most : ℕ) (history : List ℕ) (memories : Memories) (turns number : ℕ) (piece : Piece P)
        (more allowed : ℕ) (fault : Fault P)
        → IsDoneWithin work items own budget left → History work most (own ∷ []) history memories turns → MayFollow work history number piece
        → big_step piece.term more memories allowed ≢ Some (Faulted fault) }
    ensures spent { (work : Work P) (items : Terms P) (own : Memory) (budget : ℕ) (left : Left) (most : ℕ) (history : List ℕ) (memories : Memories) (turns number : ℕ) (piece : Piece P)
        (more allowed : ℕ)
        → IsDoneWithin work items own budget left → History work most (own ∷ []) history memories turns → MayFollow work history number piece
        → budget ≤ turns + allowed + left.turns → big_step piece.term more memories allowed ≢ Some Spent }
{}

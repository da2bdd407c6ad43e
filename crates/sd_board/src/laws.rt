ghost use Rattle.std.specs.Prelude.{◌≡◌, ◌+◌, ℕ, List, None, IsTrue};
ghost use Rattle.sd_work.specs.Exit.{Values};
ghost use Rattle.sd_work.specs.Step.{Done};
ghost use Rattle.sd_work.specs.Run.{Left, Sequential};
ghost use Rattle.sd_confluence.specs.Alike.{AreAlike};
ghost use Rattle.sd_graph.specs.PlainTree.{GraphTree};
ghost use Rattle.sd_mem.specs.mem.Shaped.{Shaped};
ghost use Rattle.sd_safe.specs.pieces.ItemPieces.{state_place, IsStateInPieces};
ghost use Rattle.sd_board.specs.declared.job.Closed.{Closed};
ghost use Rattle.sd_board.specs.Assignment.{HaveEnds};
ghost use Rattle.sd_board.specs.Boards.{IsClosed};
ghost use Rattle.sd_board.specs.States.{state_assignment, state_run};

/// The work of each piece of a state of a valid, accepted graph has an end, as a board asks.
pub fn pieces_of_a_state_have_ends()
    ensures { (tree : GraphTree) (state : ℕ) (values : Values) (counts : ℕ → List ℕ) (opening : Shaped) (budget : ℕ)
        → IsStateInPieces tree state counts (state_place tree state values) → HaveEnds (state_assignment tree state values counts opening budget) }
{}

/// A board of a state of a valid, accepted graph that was closed with all its pieces ends as the sequential run of the state's items: that is done, with a memory alike to
/// the board's and as many turns, whoever did the pieces and in whatever order.
pub fn a_whole_board_ends_as_the_sequential_run()
    ensures { (tree : GraphTree) (state : ℕ) (values : Values) (counts : ℕ → List ℕ) (opening : Shaped) (budget : ℕ) (closed : Closed) (left : ℕ)
        → IsStateInPieces tree state counts (state_place tree state values)
        → IsClosed (state_assignment tree state values counts opening budget) closed → IsTrue closed.is_whole
        → (end : Left) × Sequential (state_run tree state values opening.contents) (closed.turns + left) (Done end)
        × AreAlike closed.memory.contents end.memory × (end.turns ≡ left) }
{}

/// Where the sequential run of the state's items is done within the budget, no board of them is stopped.
pub fn a_board_whose_run_is_done_is_not_stopped()
    ensures { (tree : GraphTree) (state : ℕ) (values : Values) (counts : ℕ → List ℕ) (opening : Shaped) (budget : ℕ) (closed : Closed) (left : Left)
        → IsStateInPieces tree state counts (state_place tree state values)
        → Sequential (state_run tree state values opening.contents) budget (Done left)
        → IsClosed (state_assignment tree state values counts opening budget) closed → closed.stopped ≡ None }
{}

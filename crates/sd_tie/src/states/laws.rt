ghost use Rattle.std.specs.Prelude.{◌≡◌, ℕ, ◌≤◌, ℤ, List, [], Some};
ghost use Rattle.sd_lex.specs.PlainTree.{Block, FunctionTree};
ghost use Rattle.sd_work.specs.Memory.{Memories};
ghost use Rattle.sd_work.specs.Exit.{Values};
ghost use Rattle.sd_work.specs.Step.{Outcome};
ghost use Rattle.sd_work.specs.BigStep.{Reached};
ghost use Rattle.sd_graph.specs.PlainTree.{GraphTree, StateTrees};
ghost use Rattle.sd_graph.specs.ContainerParts.{Containers};
ghost use Rattle.sd_graph.specs.Context.{Reach, own_reach};
ghost use Rattle.sd_graph.specs.declared.place.Frame.{Frame};
ghost use Rattle.sd_graph.specs.declared.place.Place as shown;
ghost use Rattle.sd_program.specs.Names.{Name};
ghost use Rattle.sd_program.specs.Place.{Place, program, EveryFrom};
ghost use Rattle.sd_task.specs.task.Table.{Table};
ghost use Rattle.sd_says.specs.Setting.{Setting};
ghost use Rattle.sd_says.specs.Declared.{Declaration};
ghost use Rattle.sd_says.specs.Items.{Calls};
ghost use Rattle.sd_says.specs.Statements.{says_block};
ghost use Rattle.sd_tie.specs.items.Called.{IsCalled};
ghost use Rattle.sd_tie.specs.items.CallsDo.{CallsDo};
ghost use Rattle.sd_tie.specs.items.Standing.{Fits, HaveElements, StandsAt, variables_named_all};
ghost use Rattle.sd_tie.specs.states.Course.{Goes, loops_at};
ghost use Rattle.sd_tie.specs.states.InProgram.{Standing};
ghost use Rattle.sd_tie.specs.states.Made.{AreMade};

/// From the end of the state where a block of a program begins the run goes to the end of the state
/// where the block ends, as the block says; or it ends as the block says.
pub fn a_block_of_a_program_does_what_it_says()
    ensures { (sizes : List ℤ) (graphs : Name → GraphTree) (above : List FunctionTree) (calls : Calls) (all : List Declaration) → CallsDo sizes graphs (IsCalled sizes graphs above) calls
        → (containers : Containers) (names : List Name) (states : StateTrees) (reach : ℕ → Reach) (around : List Frame) (first_own : ℕ)
        → ((number : ℕ) → first_own ≤ number → reach number ≡ own_reach containers number)
        → (block : Block) (most : ℕ) (place : Place) (container variable : ℕ) (loops : List ℕ) (from to : ℕ) (table : Table) (setting : Setting) (values : Values)
        → place.around ≡ program → Standing sizes all containers names states reach around first_own place.containers container variable loops table setting values
        → StandsAt [] names (variables_named_all block) variable → HaveElements containers block container → EveryFrom (Fits (IsCalled sizes graphs above)) place block
        → AreMade graphs states (loops_at sizes containers names states reach around) block table container variable loops from to
        → loops_at sizes containers names states reach around from ≡ loops
        → (memories : Memories) (turns : ℕ) (outcome : Outcome shown.Place Reached) → says_block calls all most block container setting memories turns ≡ Some outcome
        → Goes sizes containers names states reach around from to variable values memories turns outcome }
{}

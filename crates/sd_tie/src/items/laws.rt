ghost use Rattle.std.specs.Prelude.{◌≡◌, ℕ, ℤ, List, [], Bool, true};
ghost use Rattle.sd_lex.specs.PlainTree.{StatementTree, Block, FunctionTree};
ghost use Rattle.sd_graph.specs.PlainTree.{GraphTree, no_item};
ghost use Rattle.sd_graph.specs.Context.{Context, own_reach};
ghost use Rattle.sd_graph.specs.Wiring.{has_number};
ghost use Rattle.sd_program.specs.Names.{Name};
ghost use Rattle.sd_program.specs.Place.{Place, scope, EveryAt, EveryFrom};
ghost use Rattle.sd_program.specs.Known.{StandsInScope};
ghost use Rattle.sd_task.specs.task.Table.{Table};
ghost use Rattle.sd_elab.specs.items.NamesBehind.{own_of};
ghost use Rattle.sd_elab.specs.items.Items.{items_with, items_of_body};
ghost use Rattle.sd_says.specs.Setting.{Setting};
ghost use Rattle.sd_says.specs.Declared.{Declaration};
ghost use Rattle.sd_says.specs.Items.{Calls, says_item, says_body};
ghost use Rattle.sd_tie.specs.items.Called.{IsCalled};
ghost use Rattle.sd_tie.specs.items.CallsDo.{CallsDo, ItemsFollow};
ghost use Rattle.sd_tie.specs.items.Standing.{Fits, HasElements, HaveElements, Stands, StandsAt, variables_named, variables_named_all};

/// What a statement says, but a loop or a branch, is what its item comes to; and so for a declaration,
/// which is no item and says nothing. Its calls
/// are of programs above, whose graphs have no negative extent with the sizes.
pub fn a_statement_does_what_it_says()
    ensures { (sizes : List ℤ) (graphs : Name → GraphTree) (above : List FunctionTree) (calls : Calls) (all : List Declaration)
        → CallsDo sizes graphs (IsCalled sizes graphs above) calls
        → (statement : StatementTree) (in_scope : Bool) (most : ℕ) (place : Place) (container variable : ℕ) (table : Table) (setting : Setting) (context : Context)
        → Stands sizes all place.containers container variable table setting context
        → StandsInScope statement → EveryAt (Fits (IsCalled sizes graphs above)) place statement
        → StandsAt [] context.names (variables_named statement) variable → HasElements context.containers statement container
        → ItemsFollow sizes (items_with graphs statement in_scope table container variable no_item) context (says_item calls all most statement in_scope container setting) }
{}

/// What the block of a scope says is what its items come to, where the containers that the block
/// declares itself are those of the innermost memory.
pub fn a_block_of_a_scope_does_what_it_says()
    ensures { (sizes : List ℤ) (graphs : Name → GraphTree) (above : List FunctionTree) (calls : Calls) (all : List Declaration)
        → CallsDo sizes graphs (IsCalled sizes graphs above) calls
        → (body : Block) (most : ℕ) (place : Place) (container variable : ℕ) (table : Table) (setting : Setting) (context : Context)
        → place.around ≡ scope → Stands sizes all place.containers container variable table setting context
        → ((number : ℕ) → has_number (own_of body container) number ≡ true → context.reach number ≡ own_reach context.containers number)
        → EveryFrom (Fits (IsCalled sizes graphs above)) place body
        → StandsAt [] context.names (variables_named_all body) variable → HaveElements context.containers body container
        → ItemsFollow sizes (items_of_body graphs body table container variable) context (says_body calls all most body container setting) }
{}

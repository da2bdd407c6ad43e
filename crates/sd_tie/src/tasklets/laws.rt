ghost use Rattle.std.specs.Prelude.{◌≡◌, ℕ, pos, [], ◌∷◌, None};
ghost use Rattle.sd_lex.specs.PlainTree.{Block};
ghost use Rattle.sd_range.specs.Arithmetic.{affine_zero};
ghost use Rattle.sd_range.specs.declared.subset.Dim.TheVariants.{Index};
ghost use Rattle.sd_work.specs.Residual.{leaf};
ghost use Rattle.sd_graph.specs.Context.{Context};
ghost use Rattle.sd_graph.specs.Unfold.{unfold_kind};
ghost use Rattle.sd_program.specs.Names.{Name, Named};
ghost use Rattle.sd_program.specs.Place.{Holder};
ghost use Rattle.sd_task.specs.task.Table.{Table};
ghost use Rattle.sd_task.specs.task.Links.{link_to};
ghost use Rattle.sd_task.specs.tasklets.Item.{tasklet_item, task_with, inputs_of, outputs_of};
ghost use Rattle.sd_says.specs.Held.{Held};
ghost use Rattle.sd_says.specs.Setting.{Setting, place_at};
ghost use Rattle.sd_says.specs.AsLeaves.{tasklet_statement, taking_tasklet};
ghost use Rattle.sd_tie.specs.elements.Tied.{Tied, AreNumbered};
ghost use Rattle.sd_tie.specs.tasklets.Connected.{AreConnected, AreLinesKnown, inputs_named, outputs_named};

/// A tasklet whose lines name what is there is, unfolded, what its block says.
pub fn a_tasklet_does_what_it_says()
    ensures { (known : Named Holder) (table : Table) (setting : Setting) (context : Context)
        → Tied table setting context → AreNumbered known table.containers
        → (line : ℕ) (body : Block) → AreLinesKnown known body → AreConnected (inputs_named body) (outputs_named body) body
        → unfold_kind (tasklet_item table body) line context ≡ leaf (place_at setting line) (tasklet_statement setting body) }
{}

/// So is the tasklet of a consume scope, whose first input is the container of the element.
pub fn a_tasklet_on_an_element_does_what_it_says()
    ensures { (known : Named Holder) (table : Table) (setting : Setting) (context : Context)
        → Tied table setting context → AreNumbered known table.containers
        → (line : ℕ) (element : Name) (container : ℕ) (held : Held) → context.reach container ≡ held.reach
        → (body : Block) → AreLinesKnown known body → AreConnected (element ∷ inputs_named body) (outputs_named body) body
        → unfold_kind (task_with table (link_to element container (Index affine_zero ∷ []) (pos 1) None ∷ inputs_of table body) (outputs_of table body) body) line context
        ≡ leaf (place_at setting line) (taking_tasklet setting element held body) }
{}

ghost use Rattle.std.specs.Prelude.{◌≡◌, ℕ, ℤ, List, [], ◌∷◌, Option, Bool, option_map, nat_abs, codes};
ghost use Rattle.sd_lex.specs.PlainTree.{Expression, Expressions, Dimension, assign, copy, reduce, while_loop, no_statement};
ghost use Rattle.sd_lex.specs.declared.syntax.memlet.Lambda.{Lambda};
ghost use Rattle.sd_range.specs.Affine.{affine_value, variable_value};
ghost use Rattle.sd_work.specs.Residual.{leaf};
ghost use Rattle.sd_graph.specs.PlainTree as plain;
ghost use Rattle.sd_graph.specs.Context.{Context};
ghost use Rattle.sd_graph.specs.Unfold.{guard_of, unfold_kind};
ghost use Rattle.sd_program.specs.Names.{Name, Named};
ghost use Rattle.sd_program.specs.IsAffine.{IsAffine};
ghost use Rattle.sd_program.specs.Affines.{affine_of};
ghost use Rattle.sd_program.specs.Bounds.{EachBound};
ghost use Rattle.sd_program.specs.Place.{Holder};
ghost use Rattle.sd_program.specs.Known.{KnowsContainers};
ghost use Rattle.sd_task.specs.task.Table.{Table};
ghost use Rattle.sd_task.specs.task.Links.{subset_link, resolution_of};
ghost use Rattle.sd_task.specs.task.ElementCode as task;
ghost use Rattle.sd_says.specs.Exact.{exact};
ghost use Rattle.sd_says.specs.Setting.{Setting, with_each, place_at};
ghost use Rattle.sd_says.specs.Parts.{part_in};
ghost use Rattle.sd_says.specs.AsLeaves.{condition_in, element_statement, copy_statement, reduce_statement};
ghost use Rattle.sd_tie.specs.elements.Tied.{Tied, AreNumbered};

/// The value of an affine expression by the numbers of its variables is its value by their names.
pub fn an_affine_expression_has_its_value()
    ensures { (values : List ℤ) (variables : Named ℕ) (expression : Expression) → IsAffine expression
        → affine_value values (affine_of variables expression) ≡ exact (with_each (variable_value values) variables) expression }
{}

/// The task of an element statement is, unfolded, what the statement says, in a scope and outside.
pub fn an_element_statement_does_what_it_says()
    ensures { (known : Named Holder) (table : Table) (setting : Setting) (context : Context)
        → Tied table setting context → AreNumbered known table.containers
        → (line : ℕ) (name : Name) (at : Expressions) (add : Bool) (value : Expression)
        → KnowsContainers known (assign line name at add value) → EachBound IsAffine (assign line name at add value)
        → (in_scope : Bool) → unfold_kind (task.element_task table in_scope name at add value) line context
        ≡ leaf (place_at setting line) (element_statement setting in_scope name at add value) }
{}

/// A condition on a line reads what it says, and holds where it says.
pub fn a_condition_asks_what_it_says()
    ensures { (known : Named Holder) (table : Table) (setting : Setting) (context : Context)
        → Tied table setting context → AreNumbered known table.containers
        → (line : ℕ) (when : Expression)
        → KnowsContainers known (while_loop line when no_statement) → EachBound IsAffine (while_loop line when no_statement)
        → guard_of context (task.guard_of table line when) ≡ condition_in setting line when }
{}

/// A copy is, unfolded, what it says.
pub fn a_copy_copies_what_it_says()
    ensures { (known : Named Holder) (table : Table) (setting : Setting) (context : Context)
        → Tied table setting context → AreNumbered known table.containers
        → (line : ℕ) (to : Name) (to_dimensions : List Dimension) (from : Name) (from_dimensions : List Dimension)
        → KnowsContainers known (copy line to to_dimensions from from_dimensions) → EachBound IsAffine (copy line to to_dimensions from from_dimensions)
        → unfold_kind (plain.copy (subset_link table (codes "from") from from_dimensions) (subset_link table (codes "to") to to_dimensions)) line context
        ≡ leaf (place_at setting line) (copy_statement (part_in setting from from_dimensions) (part_in setting to to_dimensions)) }
{}

/// A reduction is, unfolded, what it says.
pub fn a_reduction_reduces_what_it_says()
    ensures { (known : Named Holder) (table : Table) (setting : Setting) (context : Context)
        → Tied table setting context → AreNumbered known table.containers
        → (line : ℕ) (lambda : Lambda) (from to : Name) (axis identity : Option ℤ)
        → KnowsContainers known (reduce line lambda from to axis identity)
        → unfold_kind (plain.reduction (resolution_of lambda) (option_map nat_abs axis) identity (subset_link table (codes "from") from []) (subset_link table (codes "to") to [])) line context
        ≡ leaf (place_at setting line) (reduce_statement lambda (part_in setting from []) (part_in setting to []) axis identity) }
{}

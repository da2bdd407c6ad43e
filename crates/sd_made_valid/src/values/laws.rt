//! What code of element statements and conditions names: the law is a function that does nothing.
ghost use Rattle.std.specs.Prelude.{◌≡◌, ℕ, ℤ, List, Bool, Some, true};
ghost use Rattle.sd_lex.specs.PlainTree.{Expression, Expressions};
ghost use Rattle.sd_program.specs.Names.{Name};
ghost use Rattle.sd_task.specs.task.Table.{Table};
ghost use Rattle.sd_task.specs.task.ElementCode.{element_task, guard_of};
ghost use Rattle.sd_valid.specs.BoundTree.{bound_guard, bound_kind};
ghost use Rattle.sd_validity.specs.rules.Parts.{is_condition_passed, is_kind_passed};
ghost use Rattle.sd_made_valid.specs.values.Names.{names_tests};

/// With sizes, the code of an element statement and of a condition names connectors and variables that
/// it has, and each connector with as many subscripts as this has dimensions.
pub fn code_of_element_statements_and_conditions_names_what_is_there()
    ensures statements { (sizes : List ℤ) (table : Table) (in_scope : Bool) (name : Name) (at : Expressions) (add : Bool) (value : Expression)
        → is_kind_passed names_tests (bound_kind sizes (element_task table in_scope name at add value)) ≡ true }
    ensures conditions { (sizes : List ℤ) (table : Table) (line : ℕ) (when : Expression)
        → is_condition_passed names_tests (Some (bound_guard sizes (guard_of table line when))) ≡ true }
{}

//! What code of tasklets names: the law is a function that does nothing.
ghost use Rattle.std.specs.Prelude.{◌≡◌, ℤ, List, [], true};
ghost use Rattle.sd_lex.specs.PlainTree.{Block};
ghost use Rattle.sd_graph.specs.declared.link.Link.{Link};
ghost use Rattle.sd_task.specs.task.Table.{Table};
ghost use Rattle.sd_task.specs.tasklets.Item.{task_with};
ghost use Rattle.sd_valid.specs.BoundTree.{bound_kind};
ghost use Rattle.sd_validity.specs.rules.Parts.{is_kind_passed};
ghost use Rattle.sd_made_valid.specs.values.Names.{names_tests};
ghost use Rattle.sd_made_valid.specs.tasks.Counted.{dimensions_of, AreCounted};

/// Where the lines of a tasklet name its connectors with as many subscripts as these have dimensions, its
/// code, with sizes, names connectors so, variables that it has, and locals that are in force.
pub fn code_of_tasklets_names_what_is_there()
    ensures { (sizes : List ℤ) (table : Table) (ins outs : List Link) (body : Block)
        → AreCounted (dimensions_of ins []) (dimensions_of outs []) body
        → is_kind_passed names_tests (bound_kind sizes (task_with table ins outs body)) ≡ true }
{}

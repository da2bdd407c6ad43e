//! Blocks and ends of loops in a program that was read: each law is a function that does nothing.
ghost use Rattle.std.specs.Prelude.{◌≡◌, ℕ, List, Ok};
ghost use Rattle.sd_lex.specs.PlainTree.{ProgramTree};
ghost use Rattle.sd_source.specs.source.SourceReading.{reads};
ghost use Rattle.sd_program.specs.Every.{Everywhere};
ghost use Rattle.sd_read.specs.blocks.Blocks.{HasBlock, HasOtherEnd};

/// In a program that was read each map, tasklet, consume scope and loop has a statement in its block,
/// and so has each branch with a condition.
pub fn no_block_of_a_program_that_was_read_is_empty()
    ensures { (text : List ℕ) (program : ProgramTree) → reads text ≡ Ok program → Everywhere HasBlock program }
{}

/// In a program that was read the end of a `for` loop does not name the variable of the loop.
pub fn the_end_of_a_loop_that_was_read_names_other_variables()
    ensures { (text : List ℕ) (program : ProgramTree) → reads text ≡ Ok program → Everywhere HasOtherEnd program }
{}

//! Shapes in a program that was read: the law is a function that does nothing.
ghost use Rattle.std.specs.Prelude.{◌≡◌, ℕ, List, reverse, Ok};
ghost use Rattle.sd_lex.specs.PlainTree.{ProgramTree};
ghost use Rattle.sd_source.specs.source.SourceReading.{reads};
ghost use Rattle.sd_made_valid.specs.read_shapes.Fits.{AllFit};

/// Each program of a source that was read fits: its arrays have the extents that are written, of size
/// symbols alone; no loop or map has a variable of such a name; and the two sides of a copy or a
/// reduction, and an argument of a call and its parameter, have one shape, whatever numbers the
/// variables have. A parameter has extents of the size symbols that are in force at the call.
pub fn shapes_of_a_program_that_was_read_fit()
    ensures { (text : List ℕ) (program : ProgramTree) → reads text ≡ Ok program → AllFit (reverse program.functions) }
{}

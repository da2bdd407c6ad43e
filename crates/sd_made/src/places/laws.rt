//! What holds at the places of the graph of a program: each law is a function that does nothing.
ghost use Rattle.std.specs.Prelude.{◌≡◌, Ok};
ghost use Rattle.sd_lex.specs.PlainTree.{ProgramTree};
ghost use Rattle.sd_program.specs.WellFormed.{IsWellFormed};
ghost use Rattle.sd_graph.specs.PlainTree.{GraphTree};
ghost use Rattle.sd_elab.specs.elab.Elaboration.{graph_of};
ghost use Rattle.sd_valid.specs.SizeValues.{NamedSizes};
ghost use Rattle.sd_valid.specs.Binding.{binding};
ghost use Rattle.sd_validity.specs.rules.Failing.{Holds};
ghost use Rattle.sd_validity.specs.rules.StreamUse.{rule_4};
ghost use Rattle.sd_validity.specs.rules.SizesGone.{rule_8};

/// In the graph of a well-formed program, bound to sizes, streams are pushed into by outputs of
/// tasklets and consumed, and nothing else; what is consumed is a stream.
pub fn the_bound_graph_of_a_program_has_its_streams_in_place()
    ensures { (program : ProgramTree) (sizes : NamedSizes) (bound : GraphTree) → IsWellFormed program
        → binding (graph_of program) sizes ≡ Ok bound → Holds rule_4 bound }
{}

/// In the graph of a well-formed program, bound to sizes, no size symbol is left, and every extent is
/// a constant.
pub fn the_bound_graph_of_a_program_names_no_size_symbol()
    ensures { (program : ProgramTree) (sizes : NamedSizes) (bound : GraphTree) → IsWellFormed program
        → binding (graph_of program) sizes ≡ Ok bound → Holds rule_8 bound }
{}

ghost use Rattle.std.specs.Prelude.{◌≡◌, ℤ, List, length};
ghost use Rattle.sd_graph.specs.PlainTree.{TaskletTree};
ghost use Rattle.sd_graph.specs.TaskletMeaning.{Inputs, meaning_of};
ghost use Rattle.sd_tasklet.specs.literals.Literals.{lifted_tasklet, with_numbers};

/// Code whose numbers stand in variables means the same, with the numbers behind the values of its own variables.
pub fn code_with_its_numbers_in_variables_means_the_same()
    ensures { (numbers : List ℤ) (code : TaskletTree) (inputs : Inputs) → length inputs.variables ≡ length code.variables
        → meaning_of (lifted_tasklet numbers code) (with_numbers numbers inputs) ≡ meaning_of code inputs }
{}

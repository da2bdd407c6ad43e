ghost use Rattle.std.specs.Prelude.{◌≡◌, ℕ, ℤ, List, [], ◌∷◌, Option, Some, Ok, Bool};
ghost use Rattle.sd_lex.specs.PlainTree.{ProgramTree, Expression, Expressions, Block};
ghost use Rattle.sd_lex.specs.declared.syntax.memlet.Lambda.{Lambda};
ghost use Rattle.sd_work.specs.Memory.{Memory, Memories};
ghost use Rattle.sd_work.specs.Exit.{placed, passed};
ghost use Rattle.sd_work.specs.Step.{Outcome};
ghost use Rattle.sd_work.specs.Run.{Left};
ghost use Rattle.sd_work.specs.BigStep.{big_leaf};
ghost use Rattle.sd_graph.specs.TaskletMeaning.{holds, and_then};
ghost use Rattle.sd_graph.specs.declared.place.Place.{Place};
ghost use Rattle.sd_program.specs.Names.{Name, Named};
ghost use Rattle.sd_says.specs.Held.{Held};
ghost use Rattle.sd_says.specs.Setting.{Setting, place_at};
ghost use Rattle.sd_says.specs.Parts.{Part};
ghost use Rattle.sd_says.specs.Effects.{effects_at, instance_at};
ghost use Rattle.sd_says.specs.Elements.{value_read};
ghost use Rattle.sd_says.specs.Connectors.{element_inlet};
ghost use Rattle.sd_says.specs.Pieces.{element_effects, tasklet_effects, copied, reduced};
ghost use Rattle.sd_says.specs.AsLeaves.{condition_in, element_statement, tasklet_statement, taking_tasklet, copy_statement, reduce_statement};
ghost use Rattle.sd_says.specs.Says.{Says};

/// Each source says exactly one outcome, whatever its sizes, its memory and the turns are.
pub fn every_source_says_one_outcome()
    ensures comes { (source : ProgramTree) (sizes : Named ℤ) (memory : Memory) (turns : ℕ) →
        (outcome : Outcome Place Left) × Says source sizes memory turns outcome }
    ensures one { (source : ProgramTree) (sizes : Named ℤ) (memory : Memory) (turns : ℕ) (outcome other : Outcome Place Left) →
        Says source sizes memory turns outcome → Says source sizes memory turns other → outcome ≡ other }
{}

/// What a statement that is done in one piece says is what its leaf comes to, read by read and effect by
/// effect; and a condition holds where its guard does, with the same fault.
pub fn a_statement_says_what_its_leaf_comes_to()
    ensures element { (setting : Setting) (line : ℕ) (in_scope : Bool) (name : Name) (at : Expressions) (add : Bool) (value : Expression) (memories : Memories) (turns : ℕ) →
        big_leaf (place_at setting line) (element_statement setting in_scope name at add value) memories turns
        ≡ instance_at (place_at setting line) (element_effects setting in_scope name at add value) memories turns }
    ensures tasklet { (setting : Setting) (line : ℕ) (body : Block) (memories : Memories) (turns : ℕ) →
        big_leaf (place_at setting line) (tasklet_statement setting body) memories turns ≡ instance_at (place_at setting line) (tasklet_effects setting [] body) memories turns }
    ensures taking { (setting : Setting) (line : ℕ) (element : Name) (held : Held) (body : Block) (memories : Memories) (turns : ℕ) →
        big_leaf (place_at setting line) (taking_tasklet setting element held body) memories turns
        ≡ instance_at (place_at setting line) (tasklet_effects setting ((element, element_inlet held) ∷ []) body) memories turns }
    ensures copy { (place : Place) (from to : Part) (memories : Memories) (turns : ℕ) → big_leaf place (copy_statement from to) memories turns ≡ effects_at place (copied from to) memories turns }
    ensures reduction { (place : Place) (lambda : Lambda) (from to : Part) (axis identity : Option ℤ) (memories : Memories) (turns : ℕ) →
        big_leaf place (reduce_statement lambda from to axis identity) memories turns ≡ effects_at place (reduced lambda from to axis identity) memories turns }
    ensures condition { (setting : Setting) (line : ℕ) (when : Expression) (memories : Memories) →
        passed (Some (condition_in setting line when)) memories ≡ placed (place_at setting line) (and_then (value_read setting memories when) (λ value. Ok (holds value))) }
{}

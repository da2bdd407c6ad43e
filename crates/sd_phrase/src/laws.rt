ghost use Rattle.std.specs.Prelude.{◌≡◌, ◌++◌, ◌∷◌, ℕ, suc, List, Bool, false};
ghost use Rattle.sd_lex.specs.declared.syntax.operator.TwoSign.{TwoSign};
ghost use Rattle.sd_lex.specs.PlainTree.{Expression};
ghost use Rattle.sd_phrase.specs.declared.reading.Reading.TheVariants.{Form};
ghost use Rattle.sd_phrase.specs.declared.word.Piece.{Piece};
ghost use Rattle.sd_phrase.specs.ExpressionReading.{expression, reads};
ghost use Rattle.sd_phrase.specs.Grammar.{Written, undivided, grouped};
ghost use Rattle.sd_phrase.specs.Printing.{Spells, fits, read_back, word_between, is_call};

/// An expression printed with all its parentheses reads as the same tree where the levels are
/// enough for it, and is too deep otherwise.
pub fn an_expression_with_all_its_parentheses_reads_as_itself()
    ensures { (text : List ℕ) (tree : Expression) (tokens : List Piece) → Spells text tree tokens → (in_body : Bool) (levels : ℕ) → expression text in_body levels tokens ≡ read_back (fits in_body levels tree) tree }
{}

/// Tokens that the grammar of expressions has for a tree read as this tree: what a tighter operator
/// joins is a part of what a looser one joins, and operators of one rank group to the left. It
/// has them for no second tree.
pub fn an_expression_of_the_grammar_reads_as_its_tree()
    ensures reads { (text : List ℕ) (in_body : Bool) (levels rank : ℕ) (tree : Expression) (tokens : List Piece) → Written text in_body levels rank tree tokens → reads text in_body levels rank tokens ≡ Form tree }
    ensures one_tree { (text : List ℕ) (in_body : Bool) (levels rank more wide : ℕ) (tree other : Expression) (tokens : List Piece) → Written text in_body levels rank tree tokens → Written text in_body more wide other tokens → tree ≡ other }
{}

/// Three operands, each of which no operator divides, with two operators between them read as the
/// ranks of the two say.
pub fn operators_join_by_their_ranks()
    ensures { (text : List ℕ) (in_body : Bool) (levels : ℕ) (first second : TwoSign) (a b c : Expression) (front middle back : List Piece) (t u : Piece) → is_call first ≡ false → is_call second ≡ false → Written text in_body levels undivided a front → t.word ≡ word_between first → Written text in_body levels undivided b middle → u.word ≡ word_between second → Written text in_body levels undivided c back → expression text in_body (suc (suc levels)) (front ++ t ∷ (middle ++ u ∷ back)) ≡ grouped first second a b c }
{}

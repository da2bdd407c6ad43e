ghost use Rattle.std.specs.Prelude.{◌≡◌, ℕ, List, Ok};
ghost use Rattle.sd_lex.specs.Layout.{lexed};
ghost use Rattle.sd_lex.specs.TokenText.{AreTokensOf};
ghost use Rattle.sd_lex.specs.declared.token.Token.{Token};

/// The tokens of a text stand in order within it, each has the bytes that its kind says, all of
/// them ASCII, and its line is that of its first byte.
pub fn tokens_are_slices_of_their_text()
    ensures { (text : List ℕ) (tokens : List Token) → lexed text ≡ Ok tokens → AreTokensOf text tokens }
{}

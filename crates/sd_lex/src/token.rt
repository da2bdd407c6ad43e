ghost use Rattle.std.specs.Prelude.{◌≡◌, IsAscii};
ghost use Rattle.sd_lex.specs.TokenText.{text_of, IsInside};

/// What a token is.
#[derive(Clone, Copy, Debug, PartialEq, Eq)]
pub enum TokenKind {
    /// A letter or `_`, then letters, digits and `_`. Words of the language are names too.
    Name,
    /// `0`, or digits that do not begin with 0, below 2^63.
    Number(i64),
    /// A quote, a name and the same quote.
    Text,
    /// One of the signs of the language, as `+` or `<=`.
    Sign,
    /// The end of a logical line.
    LineEnd,
    /// A block opens: the line that follows is indented more than the one before.
    Indent,
    /// A block closes.
    Dedent,
}

/// A token, the bytes `from` up to `to` of the text, on the physical line `line`, counted from 1.
///
/// A `LineEnd`, an `Indent` and a `Dedent` have no bytes. A `LineEnd` stands at the end of its last
/// physical line; the others stand before the first token of the line that opens or closes
/// the block, or at the end of the text.
#[derive(Clone, Copy, Debug, PartialEq, Eq)]
pub struct Token {
    pub kind: TokenKind,
    pub from: u32,
    pub to: u32,
    pub line: u32,
}

impl Token {
    /// The bytes of the token in the text that it was cut from.
    pub fn bytes<'a>(&self, text: &'a [u8]) -> &'a [u8]
        requires { IsInside text.now self.now }
        ensures value { result.now ≡ text_of text.now self.now }
        ensures ascii { IsAscii result.now }
    {
        &text[self.from as usize..self.to as usize]
    }
}

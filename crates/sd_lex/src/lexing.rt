ghost use Rattle.std.specs.Prelude.{◌≡◌, ◌≢◌, ◌≤◌, ◌<◌, ◌^◌, Ok, Err, IfOk, IfErr, length};
ghost use Rattle.std.specs.List.{position};
ghost use Rattle.sd_lex.specs.Bytes.{is_newline};
ghost use Rattle.sd_lex.specs.Lines as lines;
ghost use Rattle.sd_lex.specs.Layout.{lexed};
ghost use Rattle.sd_lex.specs.TokenText.{AreTokensOf};

use crate::blocks::Place;
use crate::error::LexError;
use crate::layout::Lexer;
use crate::token::Token;
use std::alloc::Global;

/// Where the first newline stands.
fn newline(bytes: &[u8]) -> Option<usize>
    ensures { result ≡ position is_newline bytes.now }
{
    bytes.iter().position(|byte| *byte == b'\n')
}

/// Bytes without the carriage return at their end.
fn less_return(bytes: &[u8]) -> &[u8]
    ensures { result.now ≡ lines.less_return bytes.now }
{
    if bytes.ends_with(b"\r") {
        &bytes[..bytes.len() - 1]
    } else {
        bytes
    }
}

/// The tokens of a text of at most 2^20 bytes, or the first error in it.
///
/// Lines are joined while a bracket is open; `LineEnd`, `Indent` and `Dedent` tell how logical
/// lines and their blocks stand. It takes time linear in the text.
pub fn tokens(alloc: Global, text: &[u8]) -> Result<Vec<Token>, LexError>
    requires { length text.now ≤ 2 ^ 20 }
    ensures ok { IfOk result (λ tokens. lexed text.now ≡ Ok tokens.items) }
    ensures slices { IfOk result (λ tokens. AreTokensOf text.now tokens.items) }
    ensures err { IfErr result (λ error. error ≢ LexError.Memory → lexed text.now ≡ Err error) }
{
    let mut lexer = Lexer::new(alloc);
    let mut number: u32 = 1;
    let mut from = 0;
    while let Some(length) = newline(&text[from..]) {
        let bytes = less_return(&text[from..from + length]);
        lexer.push(text, number, from as u32, bytes)?;
        from += length + 1;
        number += 1;
    }
    lexer.push(text, number, from as u32, &text[from..])?;
    let end = Place {
        at: text.len() as u32,
        line: number,
    };
    lexer.finish(end)?;
    let Lexer { tokens, .. } = lexer;
    Ok(tokens)
}

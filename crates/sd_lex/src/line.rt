ghost use Rattle.std.specs.Prelude.{◌≡◌, ◌≢◌, ◌≤◌, ◌<◌, ◌+◌, ◌^◌, Ok, Err, OnOk, IfErr, length};
ghost use Rattle.sd_lex.specs.Reading.{after};
ghost use Rattle.sd_lex.specs.Line.{tokens_from};

use crate::bytes::{is_blank, is_comment};
use crate::error::LexError;
use crate::found::{Found, find};
use crate::token::Token;

/// Adds the tokens of a physical line, whose first byte stands at the place `from` of the text.
pub(crate) fn push_line(
    tokens: &mut Vec<Token>,
    number: u32,
    from: u32,
    bytes: &[u8],
) -> Result<(), LexError>
    requires { from + length bytes.now < 2 ^ 32 }
    ensures ok { OnOk result (after tokens.old.items (tokens_from number from 0 bytes.now) ≡ Ok tokens.new.items) }
    ensures err { IfErr result (λ error. error ≢ LexError.Memory → tokens_from number from 0 bytes.now ≡ Err error) }
{
    let mut at = 0;
    while at < bytes.len() {
        if is_blank(bytes[at]) {
            at += 1;
            continue;
        }
        if is_comment(bytes[at]) {
            return Ok(());
        }
        match find(&bytes[at..]) {
            Found::BadByte => return Err(LexError::BadByte(number)),
            Found::NumberTooWide => return Err(LexError::NumberTooWide(number)),
            Found::Token(kind, length) => {
                tokens.push(Token {
                    kind,
                    from: from + at as u32,
                    to: from + (at + length) as u32,
                    line: number,
                })?;
                at += length;
            }
        }
    }
    Ok(())
}

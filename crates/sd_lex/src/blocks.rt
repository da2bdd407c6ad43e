ghost use Rattle.std.specs.Prelude.{◌≡◌, ◌≢◌, ◌≤◌, ◌-◌, ◌∷◌, [], ◌++◌, None, OnOk, IfErr, IfSome, IsSome, map, reverse, replicate, vec_len};
ghost use Rattle.sd_lex.specs.Blocks as blocks;
ghost use Rattle.sd_lex.specs.Blocks.{outer, blocks_at};
ghost use Rattle.sd_lex.specs.Layout.{mark};

use crate::error::LexError;
use crate::token::{Token, TokenKind};

/// A place in the text, with its physical line.
#[derive(Clone, Copy)]
pub(crate) struct Place {
    pub(crate) at: u32,
    pub(crate) line: u32,
}

/// Adds a token without bytes.
pub(crate) fn push_mark(
    tokens: &mut Vec<Token>,
    place: Place,
    kind: TokenKind,
) -> Result<(), LexError>
    ensures ok { OnOk result (tokens.new.items ≡ tokens.old.items ++ mark place.at place.line kind ∷ []) }
    ensures err { IfErr result (λ error. error ≡ LexError.Memory) }
{
    tokens.push(Token {
        kind,
        from: place.at,
        to: place.at,
        line: place.line,
    })?;
    Ok(())
}

/// The width of the innermost open block, 0 where none is open.
fn innermost(widths: &[u32]) -> u32
    ensures { result ≡ blocks.innermost (reverse widths.now) }
{
    widths.last().copied().unwrap_or(0)
}

/// Closes the blocks that are wider than a line.
fn close_blocks(
    tokens: &mut Vec<Token>,
    widths: &mut Vec<u32>,
    place: Place,
    width: u32,
) -> Result<(), LexError>
    ensures ok { OnOk result (reverse widths.new.items ≡ outer width (reverse widths.old.items)) }
    ensures marks { OnOk result (tokens.new.items ≡ tokens.old.items ++ replicate (vec_len widths.old - vec_len widths.new) (mark place.at place.line TokenKind.Dedent)) }
    ensures fewer { OnOk result (vec_len widths.new ≤ vec_len widths.old) }
    ensures err { IfErr result (λ error. error ≡ LexError.Memory) }
{
    while innermost(widths) > width {
        push_mark(tokens, place, TokenKind::Dedent)?;
        widths.pop();
    }
    Ok(())
}

/// Opens and closes blocks before a line of this width.
pub(crate) fn change_blocks(
    tokens: &mut Vec<Token>,
    widths: &mut Vec<u32>,
    place: Place,
    width: u32,
) -> Result<(), LexError>
    ensures ok { OnOk result (IfSome (blocks_at width (reverse widths.old.items)) (λ blocks. (reverse widths.new.items ≡ blocks.widths) × (tokens.new.items ≡ tokens.old.items ++ map (mark place.at place.line) blocks.marks))) }
    ensures some { OnOk result (IsSome (blocks_at width (reverse widths.old.items))) }
    ensures err { IfErr result (λ error. error ≢ LexError.Memory → (error ≡ LexError.BadIndent place.line) × (blocks_at width (reverse widths.old.items) ≡ None)) }
{
    let before = widths.len();
    close_blocks(tokens, widths, place, width)?;
    if innermost(widths) == width {
        Ok(())
    } else if widths.len() == before {
        push_mark(tokens, place, TokenKind::Indent)?;
        widths.push(width)?;
        Ok(())
    } else {
        Err(LexError::BadIndent(place.line))
    }
}

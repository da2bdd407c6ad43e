//! Tokens of texts, one by one.
use crate::sure::sure;
use sd_lex::{LexError, TokenKind, tokens};
use std::alloc::Global;
use std::process::Abort;

/// The longest text that may be cut.
const MOST: usize = 1 << 20;

/// Texts, parted by the byte 1. Behind the byte 2 each has its tokens: `;` for the end of a line, `{` and `}` for blocks, and
/// the line of the last token.
const TEXTS: &str = "A[i+1] += b_2//30\u{2} A [ i + 1 ] += b_2 // 30 ; 1\u{1}\
    a<<=b\u{2} a << = b ; 1\u{1}\
    ('N',\"b\")\t0\u{2} ( 'N' , \"b\" ) 0 ; 1\u{1}\
    9223372036854775807\u{2} 9223372036854775807 ; 1\u{1}\
    _a1 Z9 # ? \u{e4}\0\u{2} _a1 Z9 ; 1\u{1}\n\n  # nothing\n\u{2}\u{1}\
    a\r\n\t\r\nb\u{2} a ; b ; 3\u{1}\
    a:\n  b\n  c\nd\u{2} a : ; { b ; c ; } d ; 4\u{1}\
    a:\n  b\n\n# x\n  c\u{2} a : ; { b ; c ; } 5\u{1}\
    f[(a] # (\n      b)\nc\u{2} f [ ( a ] b ) ; c ; 3\u{1}\
    a)\nb\u{2} a ) ; b ; 2\u{1}  a\u{2} { a ; } 1\u{1}\
    a:\n  b(\n\tc\u{2} a : ; { b ( c ; } 3\u{1}\
    f(\n\nb)\u{2} f ( b ) ; 3\u{1}\
    a:\n  b\n\n\u{2} a : ; { b ; } 4";

// Python's own tokenizer cuts this source in the same way.
const SOURCE: &str =
    "import dace\n\n@dace.program\ndef countdown(sum: dace.int64[1]):\n    S = dace.define_stream(dace.int64, 1)\n    @dace.consume(S, 2)\n    def scope(e):\n        next >> S(-1)\n        if not e <= 0:\n            next = e - 1\n        elif e != 0:\n            next = 0\n";

const CUT: &str =
    " import dace ; @ dace . program ; def countdown ( sum : dace . int64 [ 1 ] ) : ; { S = dace . define_stream ( dace . int64 , 1 ) ; @ dace . consume ( S , 2 ) ; def scope ( e ) : ; { next >> S ( - 1 ) ; if not e <= 0 : ; { next = e - 1 ; } elif e != 0 : ; { next = 0 ; } } } 13";

/// One token, with a space before it.
fn push_token(rt: &impl Abort, shown: &mut String, kind: TokenKind, bytes: &[u8]) {
    let text = match kind {
        TokenKind::LineEnd => ";",
        TokenKind::Indent => "{",
        TokenKind::Dedent => "}",
        _ => std::str::from_utf8(bytes).unwrap_or("?"),
    };
    sure(rt, write!(shown, " {text}"));
}

/// The tokens of a text, and the line of the last one.
fn shown(rt: &impl Abort, alloc: Global, text: &[u8]) -> Result<String, LexError> {
    let mut shown = String::new(alloc);
    if text.len() > MOST {
        return Ok(shown);
    }
    let list = tokens(alloc, text)?;
    for token in &list {
        push_token(rt, &mut shown, token.kind, token.bytes(text));
    }
    if let Some(token) = list.last() {
        sure(rt, write!(&mut shown, " {}", token.line));
    }
    Ok(shown)
}

/// The tokens of the texts that are cut in another way.
fn wrong(rt: &impl Abort, alloc: Global) -> String {
    let mut found = String::new(alloc);
    for case in TEXTS.split('\u{1}') {
        let (text, cut) = case.split_once('\u{2}').unwrap_or((case, ""));
        let tokens = sure(rt, shown(rt, alloc, text.as_bytes()));
        if tokens.as_str() != cut {
            sure(rt, found.push_str(tokens.as_str()));
        }
    }
    found
}

#[test]
fn texts_are_cut_into_their_tokens(rt: HostRuntime) {
    assert_eq!(rt; wrong(&rt, rt.alloc()).as_str(), "");
    let source = shown(&rt, rt.alloc(), SOURCE.as_bytes());
    assert_eq!(rt; sure(&rt, source).as_str(), CUT);
}

#[test]
fn want_of_memory_says_so(rt: HostRuntime) {
    let shown = format!(in rt.alloc(); "{}", LexError::Memory);
    assert_eq!(rt; sure(&rt, shown).as_str(), "out of memory");
}

//! Numbers that a line says and no graph has: the size of a stream, and how many workers a consume scope has.
use crate::sure::sure;
use sd_lex::{Statement, tokens};
use sd_line::{BlockKind, Head, read_head};
use sd_list::NoMemory;
use sd_phrase::{Reading, pieces_of};
use std::alloc::Global;
use std::process::Abort;

/// The longest text that may be cut.
const MOST: usize = 1 << 20;

/// Lines of a program, each with its number behind ` -> `, or with -1 where it has none.
const NUMBERS: &str = "S = dace.define_stream(dace.int64, 8) -> 8
S = dace.define_stream(dtype=dace.int64, 0) -> 0
S = dace.define_stream(dace.int64) -> -1
@dace.consume(S, 4) -> 4";

/// The number of a line of a program.
fn number_of(alloc: Global, text: &[u8]) -> Result<i64, NoMemory> {
    if text.len() > MOST {
        return Ok(-2);
    }
    let Ok(list) = tokens(alloc, text) else {
        return Ok(-2);
    };
    let pieces = pieces_of(alloc, text, &list)?;
    let line = &pieces[..pieces.len().saturating_sub(1)];
    match read_head(alloc, text, BlockKind::Program, 7, line)? {
        Reading::Form(Head::Statement(Statement::Stream { size, .. })) => Ok(size.unwrap_or(-1)),
        Reading::Form(Head::ConsumeDecorator { size, .. }) => Ok(size),
        _ => Ok(-3),
    }
}

/// The lines that have another number.
fn wrong(rt: &impl Abort, alloc: Global) -> String {
    let mut text = String::new(alloc);
    for row in NUMBERS.lines() {
        let (line, number) = row.split_once(" -> ").unwrap_or((row, ""));
        if sure(rt, number_of(alloc, line.as_bytes())) != sure(rt, number.parse()) {
            sure(rt, text.push_str(line));
        }
    }
    text
}

#[test]
fn sizes_and_workers_are_read(rt: HostRuntime) {
    assert_eq!(rt; wrong(&rt, rt.alloc()).as_str(), "");
}

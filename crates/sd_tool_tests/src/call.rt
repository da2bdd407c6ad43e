use sd_io::{Gate, MemShelf, MemSink, Open};
use sd_tool::sdfg;
use std::alloc::Global;
use std::sync::Wait;
use std::test::Fail;
use std::thread::Threads;

/// A text up to its first newline, and what stands behind it.
pub(crate) fn cut<'a>(text: &'a str) -> (&'a str, &'a str) {
    text.split_once('\n').unwrap_or((text, ""))
}

/// The number of this place in a line; 255 where there is none.
pub(crate) fn number(line: &str, place: usize) -> u64 {
    line.split(' ')
        .nth(place)
        .unwrap_or("")
        .parse()
        .unwrap_or(255)
}

/// The words of a text, parted by commas.
fn words(alloc: Global, text: &str) -> Result<Vec<String>, Fail> {
    let mut words = Vec::new(alloc);
    for word in text.split(',') {
        words.push(String::from_str(alloc, word)?)?;
    }
    Ok(words)
}

/// A file of this name and content.
fn file(alloc: Global, name: &str, content: &str) -> Result<(String, Vec<u8>), Fail> {
    let bytes = Vec::from_slice(alloc, content.as_bytes())?;
    Ok((String::from_str(alloc, name)?, bytes))
}

/// A shelf with files of these names and contents, which fails at the call of this number.
fn shelf(alloc: Global, contents: &[(&str, &str)], failing: u64) -> Result<MemShelf, Fail> {
    let mut files = Vec::new(alloc);
    for (name, content) in contents {
        files.push(file(alloc, name, content)?)?;
    }
    Ok(MemShelf::new(files, vec![in alloc; failing]?))
}

/// The calls of the shelf and of the sink that fail, by their numbers.
#[derive(Clone, Copy)]
pub(crate) struct Failing {
    pub(crate) read: u64,
    pub(crate) write: u64,
}

/// What comes of a call of these words with these files, where each piece of work passes this gate and the devices fail so: the
/// status, and the bytes that the sink has taken.
pub(crate) fn answer_by<R: Threads + Wait + Sync, G: Gate + Sync + Send>(
    rt: &R,
    alloc: Global,
    text: &str,
    contents: &[(&str, &str)],
    failing: Failing,
    gate: &G,
) -> Result<(u8, String), Fail> {
    let words = words(alloc, text)?;
    let mut shelf = shelf(alloc, contents, failing.read)?;
    let mut sink = MemSink::new(alloc, vec![in alloc; failing.write]?);
    let status = sdfg(rt, alloc, &words, &mut shelf, &mut sink, gate);
    let written = std::str::from_utf8(sink.bytes())?;
    Ok((status, String::from_str(alloc, written)?))
}

/// The same where nothing is held back.
pub(crate) fn answer<R: Threads + Wait + Sync>(
    rt: &R,
    alloc: Global,
    text: &str,
    contents: &[(&str, &str)],
    failing: Failing,
) -> Result<(u8, String), Fail> {
    answer_by(rt, alloc, text, contents, failing, &Open)
}

/// Adds to a text what a call came to, where that is not this status and this text.
pub(crate) fn note(
    text: &mut String,
    name: &str,
    found: &(u8, String),
    status: u64,
    written: &str,
) -> Result<(), Fail> {
    let (answer, other) = found;
    if u64::from(*answer) != status || other.as_str() != written {
        write!(text, "{name}: {answer} {other}")?;
    }
    Ok(())
}

use sd_elab::elaborate;
use sd_graph::Sdfg;
use sd_lex::tokens;
use sd_line::{BlockKind, read_head};
use sd_list::NoMemory;
use sd_parse::{SourceError, parse};
use sd_phrase::{Reading, pieces_of};
use std::alloc::Global;

/// The longest text of a source.
const MOST: usize = 1 << 20;

/// How many tokens a text has; none where it is too long or has an error.
fn count(alloc: Global, text: &[u8]) -> usize {
    if text.len() > MOST {
        return 0;
    }
    match tokens(alloc, text) {
        Ok(list) => list.len(),
        Err(_) => 0,
    }
}

/// A text is cut into tokens.
pub(crate) fn lex(alloc: Global, text: &[u8], times: u64) -> Result<String, NoMemory> {
    let mut number = 0;
    for _ in 0..times {
        number = count(alloc, text);
    }
    Ok(format!(in alloc; "{number} tokens\n")?)
}

/// What a text of one line is as a line of a tasklet.
fn read(alloc: Global, text: &[u8]) -> &'static str {
    if text.len() > MOST {
        return "too long\n";
    }
    let Ok(list) = tokens(alloc, text) else {
        return "no tokens\n";
    };
    let Ok(pieces) = pieces_of(alloc, text, &list) else {
        return "no memory\n";
    };
    let line = &pieces[..pieces.len().saturating_sub(1)];
    match read_head(alloc, text, BlockKind::Tasklet, 1, line) {
        Ok(Reading::NoForm) => "no form\n",
        Ok(Reading::TooDeep) => "too deep\n",
        Ok(Reading::Form(_)) => "a form\n",
        Err(_) => "no memory\n",
    }
}

/// A text is cut into tokens, and these are read as one line of a tasklet.
pub(crate) fn line(alloc: Global, text: &[u8], times: u64) -> Result<String, NoMemory> {
    let mut became = "\n";
    for _ in 0..times {
        became = read(alloc, text);
    }
    Ok(became.to_string(alloc)?)
}

/// The number of programs and symbols of a source; none where the text is too long.
fn size(alloc: Global, text: &[u8]) -> Result<Option<(usize, usize)>, SourceError> {
    if text.len() > MOST {
        return Ok(None);
    }
    let program = parse(alloc, text)?;
    Ok(Some((program.functions.len(), program.symbols.len())))
}

/// A text is read as a source.
pub(crate) fn parsed(alloc: Global, text: &[u8], times: u64) -> Result<String, NoMemory> {
    let mut became = Ok(None);
    for _ in 0..times {
        became = size(alloc, text);
    }
    Ok(match became {
        Ok(Some((programs, symbols))) => {
            format!(in alloc; "{programs} programs, {symbols} symbols\n")?
        }
        Ok(None) => "too long\n".to_string(alloc)?,
        Err(error) => format!(in alloc; "{error}\n")?,
    })
}

/// The graph of a source, made so many times; none where the text is too long, or where it is made no time.
fn graph_of(alloc: Global, text: &[u8], times: u64) -> Result<Option<Sdfg>, SourceError> {
    let mut graph = None;
    if text.len() <= MOST {
        let program = parse(alloc, text)?;
        for _ in 0..times {
            graph = Some(elaborate(alloc, &program)?);
        }
    }
    Ok(graph)
}

/// The graph of a source is made of what was read once.
pub(crate) fn graph(alloc: Global, text: &[u8], times: u64) -> Result<String, NoMemory> {
    Ok(match graph_of(alloc, text, times) {
        Ok(Some(graph)) => {
            let (containers, variables) = (graph.containers.len(), graph.variables.len());
            let states = graph.states.len();
            format!(in alloc; "{containers} containers, {variables} variables, {states} states\n")?
        }
        Ok(None) => "no graph\n".to_string(alloc)?,
        Err(error) => format!(in alloc; "{error}\n")?,
    })
}

//! The lines of a chain file.
ghost use Rattle.std.specs.Prelude.{◌≡◌, IfOk, option_map};
ghost use Rattle.std.specs.Str.{bytes_eq};
ghost use Rattle.sd_chain.specs.Picks.{words};
ghost use Rattle.sd_chain.specs.Chain as definition;

use crate::parts::first_part;
use crate::picks::{first_word, pick_of};
use crate::step::Step;
use sd_graph::Path;
use sd_list::{NoMemory, Sequence};
use std::alloc::Global;

/// What a line asks for.
#[derive(Drop)]
pub(crate) enum Line {
    /// Nothing: it is blank, or a remark.
    Nothing,
    /// A step.
    Does(Step),
    /// It is no form.
    NoForm,
}

/// The number that a part of a path writes.
fn number_of(part: &[u8]) -> Option<u32>
    ensures { result ≡ definition.number_of part.now }
{
    if part.is_empty() {
        return None;
    }
    match u32::try_from(pick_of(part)?) {
        Ok(number) => Some(number),
        Err(_) => None,
    }
}

/// The path that a word writes.
#[tactic(auto, using(crate::proofs::Paths::path_steps))]
fn path_of(alloc: Global, word: &[u8]) -> Result<Option<Path>, NoMemory>
    ensures { IfOk result (λ path. path ≡ definition.path_of word.now) }
{
    let mut steps = Sequence::new(alloc);
    let mut rest = Some(word);
    while let Some(from) = rest {
        let (part, behind) = first_part(from, b'.');
        let Some(number) = number_of(part) else {
            return Ok(None);
        };
        steps.push(number)?;
        rest = behind;
    }
    Ok(Some(Path { steps }))
}

/// The one path that the words of a text are.
fn sole_path(alloc: Global, arguments: &[u8]) -> Result<Option<Path>, NoMemory>
    ensures { IfOk result (λ path. path ≡ definition.sole_path (words arguments.now)) }
{
    let Some((path, others)) = first_word(arguments) else {
        return Ok(None);
    };
    match first_word(others) {
        Some(_) => Ok(None),
        None => path_of(alloc, path),
    }
}

/// The sizes that the words of a text write.
#[tactic(auto, using(crate::proofs::Sizes::size_steps))]
fn sizes_of(alloc: Global, text: &[u8]) -> Result<Option<Sequence<u64>>, NoMemory>
    ensures { IfOk result (λ sizes. sizes ≡ definition.sizes_of (words text.now)) }
{
    let mut sizes = Sequence::new(alloc);
    let mut rest = text;
    while let Some((word, behind)) = first_word(rest) {
        let Some(size) = pick_of(word) else {
            return Ok(None);
        };
        sizes.push(size)?;
        rest = behind;
    }
    Ok(Some(sizes))
}

/// The tiling of a path with sizes. There is none without a size.
fn tiling_with(at: Option<Path>, sizes: Option<Sequence<u64>>) -> Option<Step>
    ensures { result ≡ definition.tiling_with at sizes }
{
    let (at, sizes) = (at?, sizes?);
    if sizes.is_empty() {
        return None;
    }
    Some(Step::MapTiling { at, sizes })
}

/// The tiling with a path and sizes that the words of a text are.
fn tiling_of(alloc: Global, arguments: &[u8]) -> Result<Option<Step>, NoMemory>
    ensures { IfOk result (λ step. step ≡ definition.tiling_of (words arguments.now)) }
{
    let Some((path, others)) = first_word(arguments) else {
        return Ok(None);
    };
    let at = path_of(alloc, path)?;
    Ok(tiling_with(at, sizes_of(alloc, others)?))
}

/// Whether a word is this name.
fn same(word: &[u8], name: &[u8]) -> bool
    ensures { result ≡ bytes_eq word.now name.now }
{
    word == name
}

/// The step with a name and arguments, which are the words of a text.
fn step_of(alloc: Global, name: &[u8], arguments: &[u8]) -> Result<Option<Step>, NoMemory>
    ensures { IfOk result (λ step. step ≡ definition.step_of name.now (words arguments.now)) }
{
    let step = if same(name, b"MapCollapse") {
        sole_path(alloc, arguments)?.map(|at| Step::MapCollapse { at })
    } else if same(name, b"MapExpansion") {
        sole_path(alloc, arguments)?.map(|at| Step::MapExpansion { at })
    } else if same(name, b"MapInterchange") {
        sole_path(alloc, arguments)?.map(|at| Step::MapInterchange { at })
    } else if same(name, b"MapTiling") {
        tiling_of(alloc, arguments)?
    } else {
        None
    };
    Ok(step)
}

/// What a line asks for.
pub(crate) fn read_line(alloc: Global, line: &[u8]) -> Result<Line, NoMemory>
    ensures { IfOk result (λ read. read ≡ definition.line_of line.now) }
{
    if line.first() == Some(&b'#') {
        return Ok(Line::Nothing);
    }
    let Some((name, arguments)) = first_word(line) else {
        return Ok(Line::Nothing);
    };
    match step_of(alloc, name, arguments)? {
        Some(step) => Ok(Line::Does(step)),
        None => Ok(Line::NoForm),
    }
}

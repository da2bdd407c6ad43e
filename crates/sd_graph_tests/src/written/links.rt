//! Affine expressions, ranges and links. An expression is `5`, `v0`, `v0+1`, `v0+-1`, `1024v2` or `-3v2+7`.
//! `0:2` is the range from 0 to 2, `0:2:3` has the step 3, and `0:2&v0` two ends. `1[0,0:2]` is a link to a
//! row of container 1, and `3` one to a stream.
use sd_graph::{Link, Memlet};
use sd_list::{Sequence, Text};
use sd_range::{Affine, Dim, Range, Subset};
use std::alloc::Global;
use std::test::Fail;

pub(crate) fn affine(alloc: Global, word: &str) -> Result<Affine, Fail> {
    let Some((factor, rest)) = word.split_once('v') else {
        return Ok(Affine::constant(alloc, word.parse()?));
    };
    let (variable, constant) = rest.split_once('+').unwrap_or((rest, "0"));
    let mut sum = Affine::constant(alloc, constant.parse()?);
    let coefficient = if factor.is_empty() {
        1
    } else {
        factor.parse()?
    };
    if coefficient != 0 {
        sum.terms.push(variable.parse()?, coefficient)?;
    }
    Ok(sum)
}

/// Affine expressions with this sign between them; none in an empty text.
pub(crate) fn affines(alloc: Global, text: &str, sign: char) -> Result<Sequence<Affine>, Fail> {
    let mut all = Sequence::new(alloc);
    for word in text.split(sign) {
        if !word.is_empty() {
            all.push(affine(alloc, word)?)?;
        }
    }
    Ok(all)
}

pub(crate) fn range(alloc: Global, word: &str) -> Result<Range, Fail> {
    let (begin, rest) = word.split_once(':').unwrap_or((word, ""));
    let (ends, step) = rest.split_once(':').unwrap_or((rest, "1"));
    Ok(Range {
        begin: affine(alloc, begin)?,
        ends: affines(alloc, ends, '&')?,
        step: step.parse()?,
    })
}

pub(crate) fn link(alloc: Global, word: &str) -> Result<Link, Fail> {
    let (container, at) = word.split_once('[').unwrap_or((word, ""));
    let mut dims = Sequence::new(alloc);
    for word in at.trim_end_matches(']').split(',') {
        if word.contains(':') {
            dims.push(Dim::Span(range(alloc, word)?))?;
        } else if !word.is_empty() {
            dims.push(Dim::Index(affine(alloc, word)?))?;
        }
    }
    let memlet = Memlet {
        container: container.parse()?,
        subset: Subset { dims },
        volume: 1,
        resolution: None,
    };
    let connector = Text::from(String::new(alloc));
    Ok(Link { connector, memlet })
}

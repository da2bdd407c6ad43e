//! The ranges of a link's subset.
ghost use Rattle.std.specs.Prelude.{◌≡◌, length, map, IfOk};
ghost use Rattle.sd_validity.specs.rules.Parts as parts;

use sd_graph::Link;
use sd_list::NoMemory;
use sd_range::{Dim, Range};
use std::alloc::Global;

/// How many ranges a subset has.
pub(crate) fn span_count(link: &Link) -> usize
    ensures { result ≡ length (parts.link_spans link.now) }
{
    let mut count = 0;
    for dim in link.memlet.subset.dims.as_slice() {
        if let Dim::Span(_) = dim {
            count += 1;
        }
    }
    count
}

/// The ranges of a subset, in order.
pub(crate) fn link_spans(alloc: Global, link: &Link) -> Result<Vec<&Range>, NoMemory>
    ensures { IfOk result (λ spans. map (λ span. span.now) spans.items ≡ parts.link_spans link.now) }
{
    let mut spans = Vec::new(alloc);
    for dim in link.memlet.subset.dims.as_slice() {
        if let Dim::Span(range) = dim {
            spans.push(range)?;
        }
    }
    Ok(spans)
}

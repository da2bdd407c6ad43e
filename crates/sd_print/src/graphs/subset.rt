//! The texts of ranges and subsets.
ghost use Rattle.std.specs.Prelude.{◌≡◌, ◌++◌, map, string_bytes, OnOk};
ghost use Rattle.sd_print.specs.graphs.SubsetText as definition;

use crate::graphs::affine::{push_affine, push_end};
use sd_list::NoMemory;
use sd_range::{Affine, Dim, Range};
use std::alloc::Global;

/// Adds the ends of a range.
fn push_ends(
    alloc: Global,
    text: &mut String,
    names: &[String],
    order: &[u32],
    ends: &[Affine],
) -> Result<(), NoMemory>
    ensures { OnOk result (string_bytes text.new ≡ string_bytes text.old ++ definition.ends_text (map string_bytes names.now) order.now ends.now) }
{
    let Some((end, others)) = ends.split_first() else {
        return Ok(());
    };
    if others.len() == 0 {
        return push_end(alloc, text, names, order, end);
    }
    text.push_str("min(")?;
    push_end(alloc, text, names, order, end)?;
    for other in others {
        text.push_str(",")?;
        push_end(alloc, text, names, order, other)?;
    }
    text.push_str(")")?;
    Ok(())
}

/// Adds a step, unless it is 1.
fn push_step(text: &mut String, step: i128) -> Result<(), NoMemory>
    ensures { OnOk result (string_bytes text.new ≡ string_bytes text.old ++ definition.step_text step) }
{
    if step != 1 {
        write!(text, ":{step}")?;
    }
    Ok(())
}

/// Adds a range.
pub(crate) fn push_range(
    alloc: Global,
    text: &mut String,
    names: &[String],
    order: &[u32],
    range: &Range,
) -> Result<(), NoMemory>
    ensures { OnOk result (string_bytes text.new ≡ string_bytes text.old ++ definition.range_text (map string_bytes names.now) order.now range.now) }
{
    push_affine(alloc, text, names, order, &range.begin)?;
    text.push_str(":")?;
    push_ends(alloc, text, names, order, range.ends.as_slice())?;
    push_step(text, range.step)
}

/// Adds a dimension.
fn push_dim(
    alloc: Global,
    text: &mut String,
    names: &[String],
    order: &[u32],
    dim: &Dim,
) -> Result<(), NoMemory>
    ensures { OnOk result (string_bytes text.new ≡ string_bytes text.old ++ definition.dim_text (map string_bytes names.now) order.now dim.now) }
{
    match dim {
        Dim::Index(at) => push_affine(alloc, text, names, order, at),
        Dim::Span(range) => push_range(alloc, text, names, order, range),
    }
}

/// Adds dimensions.
pub(crate) fn push_dims(
    alloc: Global,
    text: &mut String,
    names: &[String],
    order: &[u32],
    dims: &[Dim],
) -> Result<(), NoMemory>
    ensures { OnOk result (string_bytes text.new ≡ string_bytes text.old ++ definition.dims_text (map string_bytes names.now) order.now dims.now) }
{
    let Some((dim, others)) = dims.split_first() else {
        return Ok(());
    };
    push_dim(alloc, text, names, order, dim)?;
    for other in others {
        text.push_str(", ")?;
        push_dim(alloc, text, names, order, other)?;
    }
    Ok(())
}

//! The texts of accesses.
ghost use Rattle.std.specs.Prelude.{◌≡◌, ◌++◌, map, string_bytes, OnOk};
ghost use Rattle.sd_graph.specs.TreeFold.{named_container};
ghost use Rattle.sd_wire.specs.wiring.Mentioned.{mode_of};
ghost use Rattle.sd_race.specs.text.AccessText as definition;

use indexmap::IndexMap;
use sd_graph::Container;
use sd_list::NoMemory;
use sd_print::{names_stream, push_affine, push_container_name, push_end, resolution_word};
use sd_prop::Access;
use sd_subset::Bounds;
use sd_wire::UseMode;
use std::alloc::Global;

/// The word for a mode.
fn mode_word(mode: UseMode) -> &'static str
    ensures { result.now ≡ definition.mode_word (mode_of mode) }
{
    match mode {
        UseMode::Read => "read",
        UseMode::Write => "write",
        UseMode::Resolve(by) => resolution_word(by),
        UseMode::Push => "push",
        UseMode::Take => "take",
    }
}

/// Adds the mode and the container of an access.
pub(crate) fn push_use(
    text: &mut String,
    containers: &IndexMap<String, Container>,
    access: &Access,
) -> Result<(), NoMemory>
    ensures { OnOk result (string_bytes text.new ≡ string_bytes text.old ++ definition.use_text (map named_container containers.now.entries) access.now) }
{
    text.push_str(mode_word(access.mode()))?;
    text.push_str(" ")?;
    push_container_name(text, containers, access.container())
}

/// Adds the bounds of a dimension as a range.
fn push_bounds(
    alloc: Global,
    text: &mut String,
    names: &[String],
    order: &[u32],
    bounds: &Bounds,
) -> Result<(), NoMemory>
    ensures { OnOk result (string_bytes text.new ≡ string_bytes text.old ++ definition.bounds_text (map string_bytes names.now) order.now bounds.now) }
{
    push_affine(alloc, text, names, order, &bounds.low)?;
    text.push_str(":")?;
    push_end(alloc, text, names, order, &bounds.high)
}

/// Adds the bounds of dimensions.
fn push_box(
    alloc: Global,
    text: &mut String,
    names: &[String],
    order: &[u32],
    dimensions: &[Bounds],
) -> Result<(), NoMemory>
    ensures { OnOk result (string_bytes text.new ≡ string_bytes text.old ++ definition.box_text (map string_bytes names.now) order.now dimensions.now) }
{
    let Some((bounds, others)) = dimensions.split_first() else {
        return Ok(());
    };
    push_bounds(alloc, text, names, order, bounds)?;
    for other in others {
        text.push_str(", ")?;
        push_bounds(alloc, text, names, order, other)?;
    }
    Ok(())
}

/// Adds what an access touches, in brackets; of a stream nothing.
pub(crate) fn push_touched(
    alloc: Global,
    text: &mut String,
    names: &[String],
    containers: &IndexMap<String, Container>,
    order: &[u32],
    access: &Access,
) -> Result<(), NoMemory>
    ensures { OnOk result (string_bytes text.new ≡ string_bytes text.old ++ definition.touched_text (map string_bytes names.now) (map named_container containers.now.entries) order.now access.now) }
{
    if names_stream(containers, access.container()) {
        return Ok(());
    }
    text.push_str("[")?;
    push_box(alloc, text, names, order, access.bounds())?;
    text.push_str("]")?;
    Ok(())
}

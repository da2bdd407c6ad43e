//! The items of statements that have neither a block nor a graph.
ghost use Rattle.std.specs.Prelude.{◌≡◌, [], codes, nat_abs, option_map, IfOk};
ghost use Rattle.sd_lex.specs.TreeFold.{dimensions_of};
ghost use Rattle.sd_graph.specs.PlainTree as plain;
ghost use Rattle.sd_graph.specs.TreeFold.{kind_tree};
ghost use Rattle.sd_program.specs.Bounds.{EachDimension};
ghost use Rattle.sd_program.specs.Small.{IsSmall};
ghost use Rattle.sd_task.specs.task.Links as links;
ghost use Rattle.sd_task.specs.in_force.SmallExtents.{HaveSmallExtents};
ghost use Rattle.sd_task.specs.task.TableOf.{table_of};

use sd_graph::ItemKind;
use sd_lex::{Lambda, Slot};
use sd_list::NoMemory;
use sd_task::{Names, resolution_of, subset_link};
use std::alloc::Global;

/// The item of a copy.
pub(crate) fn copy(
    alloc: Global,
    names: &Names,
    to: &str,
    to_slots: &[Slot],
    from: &str,
    from_slots: &[Slot],
) -> Result<ItemKind, NoMemory>
    requires extents { HaveSmallExtents (table_of names.now).all }
    requires to { EachDimension IsSmall (dimensions_of to_slots.now) }
    requires from { EachDimension IsSmall (dimensions_of from_slots.now) }
    ensures { IfOk result (λ kind. kind_tree kind ≡ plain.copy (links.subset_link (table_of names.now) (codes "from") from.now (dimensions_of from_slots.now)) (links.subset_link (table_of names.now) (codes "to") to.now (dimensions_of to_slots.now))) }
{
    Ok(ItemKind::Copy {
        from: subset_link(alloc, names, "from", from, from_slots)?,
        to: subset_link(alloc, names, "to", to, to_slots)?,
    })
}

/// An axis as a number of 32 bits.
fn axis_number(axis: Option<i64>) -> Result<Option<u32>, NoMemory>
    ensures { IfOk result (λ number. number ≡ option_map nat_abs axis) }
{
    match axis {
        None => Ok(None),
        Some(axis) => {
            let number = u32::try_from(axis.unsigned_abs()).map_err(|_| NoMemory)?;
            Ok(Some(number))
        }
    }
}

/// The item of a reduction.
pub(crate) fn reduction(
    alloc: Global,
    names: &Names,
    lambda: Lambda,
    from: &str,
    to: &str,
    axis: Option<i64>,
    identity: Option<i64>,
) -> Result<ItemKind, NoMemory>
    requires { HaveSmallExtents (table_of names.now).all }
    ensures { IfOk result (λ kind. kind_tree kind ≡ plain.reduction (links.resolution_of lambda) (option_map nat_abs axis) identity (links.subset_link (table_of names.now) (codes "from") from.now []) (links.subset_link (table_of names.now) (codes "to") to.now [])) }
{
    Ok(ItemKind::Reduce {
        resolution: resolution_of(lambda),
        axis: axis_number(axis)?,
        identity,
        from: subset_link(alloc, names, "from", from, &[])?,
        to: subset_link(alloc, names, "to", to, &[])?,
    })
}

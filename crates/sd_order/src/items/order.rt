ghost use Rattle.std.specs.Prelude.{◌≡◌, ◌≢◌, ◌<◌, ◌+◌, ◌*◌, ℕ, map, length, false, slice_index_or, IfOk, OnOk};
ghost use Rattle.sd_graph.specs.TreeFold.{item_trees, named_container};
ghost use Rattle.sd_graph.specs.Wiring.{before, is_before};
ghost use Rattle.sd_order.specs.table.Told.{told};

use crate::items::reached::{add, do_meet};
use crate::items::use_::Use;
use crate::items::uses::uses_of_each;
use crate::table::Order;
use indexmap::IndexMap;
use sd_graph::{Container, Item};
use sd_list::{NoMemory, Sequence};
use std::alloc::Global;

/// Which items of a list are before which, in a graph with these containers.
pub fn order_of(
    alloc: Global,
    items: &[Item],
    containers: &IndexMap<String, Container>,
) -> Result<Order, NoMemory>
    ensures { IfOk result (λ order. told order ≡ before (map named_container containers.now.entries) (item_trees items.now)) }
{
    let each = uses_of_each(alloc, items, containers)?;
    let each = each.as_slice();
    let count = each.len();
    let size = count.checked_mul(count).ok_or(NoMemory)?;
    let mut table = vec![in alloc; false; size]?;
    for from in 0..count {
        tell_from(alloc, each, from, &mut table)?;
    }
    Ok(Order { count, table })
}

/// Tells of each later item whether the one of this number is before it: whether it conflicts with what the items do that are
/// reached so far.
fn tell_from(
    alloc: Global,
    each: &[Sequence<Use>],
    from: usize,
    table: &mut Vec<bool>,
) -> Result<(), NoMemory>
    requires there { from < length each.now }
    requires sized { length table.old.items ≡ length each.now * length each.now }
    ensures sized { OnOk result (length table.new.items ≡ length table.old.items) }
    ensures told { OnOk result ((to : ℕ) → from < to → to < length each.now → slice_index_or table.new.items (to * length each.now + from) false ≡ is_before each.now from to) }
    ensures others { OnOk result ((to column : ℕ) → column < length each.now → column ≢ from → slice_index_or table.new.items (to * length each.now + column) false ≡ slice_index_or table.old.items (to * length each.now + column) false) }
{
    let mut modes = Vec::new(alloc);
    add(&mut modes, each[from].as_slice())?;
    for to in from + 1..each.len() {
        let uses = each[to].as_slice();
        let is_led = do_meet(modes.as_slice(), uses);
        table[to * each.len() + from] = is_led;
        if is_led {
            add(&mut modes, uses)?;
        }
    }
    Ok(())
}

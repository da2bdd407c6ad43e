//! Changes of elements, one by one: each gives the fault that it comes to, if any.
ghost use Rattle.std.specs.Prelude.{[], ◌∷◌, option_map};
ghost use Rattle.sd_work.specs.Leaf.{write_value};
ghost use Rattle.sd_mem.specs.machine.Stack.{reference_of};
ghost use Rattle.sd_leaves.specs.leaves.Done.{IsDone, performing};
ghost use Rattle.sd_leaves.specs.leaves.Cells.{transferring};

use sd_graph::FaultKind;
use sd_mem::{Address, Machine};
use sd_num::Resolution;

/// Writes a value to an element, where that is inside.
pub(crate) fn write(
    value: i64,
    to: Option<Address>,
    by: Option<Resolution>,
    machine: &mut Machine,
) -> Option<FaultKind>
    ensures { IsDone (performing (write_value value (option_map reference_of to) by ∷ [])) machine.old result machine.new }
{
    let Some(to) = to else {
        return Some(FaultKind::Subscript);
    };
    machine.write(to, by, value);
    None
}

/// Reads an element and writes its value to another one, where both are inside.
pub(crate) fn transfer(
    from: Option<Address>,
    to: Option<Address>,
    by: Option<Resolution>,
    machine: &mut Machine,
) -> Option<FaultKind>
    ensures { IsDone (performing (transferring by (from, to) ∷ [])) machine.old result machine.new }
{
    let Some(from) = from else {
        return Some(FaultKind::Subscript);
    };
    let value = machine.look(from);
    write(value, to, by, machine)
}

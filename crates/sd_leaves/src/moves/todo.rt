ghost use Rattle.std.specs.Prelude.{◌∷◌, List, IfOk};
ghost use Rattle.sd_work.specs.Leaf.{Leaf, Pending, write_value, transfer, doing};
ghost use Rattle.sd_work.specs.LeafMove.{do_move};
ghost use Rattle.std.specs.Prelude.{option_map};
ghost use Rattle.sd_graph.specs.declared.place.Place.{Place};
ghost use Rattle.sd_mem.specs.machine.Stack.{reference_of};
ghost use Rattle.sd_leaves.specs.moves.Left.{told};
ghost use Rattle.sd_leaves.specs.moves.Moved.{IsMoved, end_if};

use sd_list::NoMemory;
use sd_mem::{Address, Machine, Station};
use sd_num::Resolution;

/// One thing that is still to do. An element that is not inside is `None`.
#[derive(Clone, Copy, Debug, PartialEq, Eq)]
pub enum Todo {
    /// A value is written to an element.
    Write {
        value: i64,
        to: Option<Address>,
        by: Option<Resolution>,
    },
    /// An element is read and written to another one.
    Transfer {
        from: Option<Address>,
        to: Option<Address>,
        by: Option<Resolution>,
    },
    /// A value is pushed into a stream.
    Push {
        station: Station,
        value: i64,
    },
}

/// Writes a value to an element; `false` where that is not inside.
fn write(value: i64, to: Option<Address>, by: Option<Resolution>, machine: &mut Machine) -> bool
    ensures { (place : Place) (left : List Pending) (old : Leaf) → IsMoved (do_move place (write_value value (option_map reference_of to) by) machine.old.memories left) old machine.old (end_if result place) machine.new (doing left) }
{
    let Some(to) = to else {
        return false;
    };
    machine.write(to, by, value);
    true
}

/// Reads an element and writes it to another one; `false` where one of them is not inside.
fn transfer(
    from: Option<Address>,
    to: Option<Address>,
    by: Option<Resolution>,
    machine: &mut Machine,
) -> bool
    ensures { (place : Place) (left : List Pending) (old : Leaf) → IsMoved (do_move place (transfer (option_map reference_of from) (option_map reference_of to) by) machine.old.memories left) old machine.old (end_if result place) machine.new (doing left) }
{
    let Some(from) = from else {
        return false;
    };
    let value = machine.look(from);
    write(value, to, by, machine)
}

/// Does one thing; `false` where an element is not inside, and then nothing is changed.
pub(crate) fn perform(todo: Todo, machine: &mut Machine) -> Result<bool, NoMemory>
    ensures { IfOk result (λ inside. (place : Place) (left : List Pending) (old : Leaf) → IsMoved (do_move place (told todo) machine.old.memories left) old machine.old (end_if inside place) machine.new (doing left)) }
{
    match todo {
        Todo::Write { value, to, by } => Ok(write(value, to, by, machine)),
        Todo::Transfer { from, to, by } => Ok(transfer(from, to, by, machine)),
        Todo::Push { station, value } => {
            machine.push(station, value)?;
            Ok(true)
        }
    }
}

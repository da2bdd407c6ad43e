ghost use Rattle.std.specs.Prelude.{◌≡◌, ◌∷◌, [], IfOk, OnErr};
ghost use Rattle.sd_mem.specs.mem.Shaped.{MayAllHave};

use sd_list::NoMemory;
use sd_mem::{Machine, Memory};
use std::alloc::Global;

/// A machine over what a memory holds, which is lent, with so many turns. For want of memory the memory stays as it is.
pub(crate) fn machine_over(
    alloc: Global,
    memory: &mut Memory,
    turns: u64,
) -> Result<Machine, NoMemory>
    ensures memories { IfOk result (λ machine. machine.memories ≡ memory.old.contents ∷ []) }
    ensures turns { IfOk result (λ machine. machine.turns ≡ turns) }
    ensures fit { IfOk result (λ machine. MayAllHave memory.old.shapes memory.old.contents) }
    ensures shapes { memory.new.shapes ≡ memory.old.shapes }
    ensures err { OnErr result (memory.new ≡ memory.old) }
{
    let mut machine = Machine::new(alloc, Memory::empty(alloc), turns)?;
    machine.leave();
    let mut lent = memory.lend()?;
    if machine.lend(&mut lent).is_err() {
        memory.take_back(lent);
        return Err(NoMemory);
    }
    Ok(machine)
}

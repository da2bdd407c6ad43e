ghost use Rattle.std.specs.Prelude.{◌≡◌, ◌+◌, IfOk};

use sd_list::NoMemory;

/// The number so many behind another. Numbers have 32 bits, and no program has as many of anything.
pub fn more(number: u32, by: u32) -> Result<u32, NoMemory>
    ensures { IfOk result (λ sum. sum ≡ number + by) }
{
    number.checked_add(by).ok_or(NoMemory)
}

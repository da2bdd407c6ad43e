ghost use Rattle.std.specs.Prelude.{IfOk};
ghost use Rattle.std.specs.Option.{MatchOption};
ghost use Rattle.std.specs.Bool.{⊤};
ghost use Rattle.sd_rows.specs.tasks.Runners.{IsRunnerOf, AreRunnersOf};

use sd_graph::{Item, ItemKind};
use sd_list::NoMemory;
use sd_row::Runner;
use std::alloc::Global;

/// The flat code of an item; `None` where it is no tasklet.
fn runner_of(alloc: Global, item: &Item) -> Result<Option<Runner>, NoMemory>
    ensures { IfOk result (λ runner. MatchOption runner ⊤ (IsRunnerOf item.now)) }
{
    match &item.kind {
        ItemKind::Task { code, ins, outs } => {
            Runner::made(alloc, code, ins.as_slice(), outs.as_slice())
        }
        _ => Ok(None),
    }
}

/// The flat code of each item of a list; `None` where one of them has none.
pub fn runners_of(alloc: Global, items: &[Item]) -> Result<Option<Vec<Runner>>, NoMemory>
    ensures { IfOk result (λ runners. MatchOption runners ⊤ (λ runners. AreRunnersOf items.now runners.items)) }
{
    let mut runners = Vec::with_capacity(alloc, items.len())?;
    for item in items {
        let Some(runner) = runner_of(alloc, item)? else {
            return Ok(None);
        };
        runners.push(runner)?;
    }
    Ok(Some(runners))
}

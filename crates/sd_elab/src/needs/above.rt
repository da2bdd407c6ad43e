ghost use Rattle.std.specs.Prelude.{◌≡◌, [], map, reverse, IfOk};
ghost use Rattle.sd_lex.specs.TreeFold.{block_of, function_of};
ghost use Rattle.sd_elab.specs.needs.Needed as definition;
ghost use Rattle.sd_source.specs.nodes.Names.{noted};

use crate::needs::called::{is_noted, note_called};
use indexmap::IndexSet;
use sd_lex::{Function, Statement};
use sd_list::NoMemory;
use std::alloc::Global;

/// Of the programs above a block, those that it needs, the latest first.
///
/// Each program above is looked up once, and the blocks of those that are needed are gone through once.
pub fn needed<'a>(
    alloc: Global,
    above: &'a [Function],
    body: &[Statement],
) -> Result<Vec<&'a Function>, NoMemory>
    ensures { IfOk result (λ needed. map (λ function. function_of function.now) needed.items ≡ definition.needed_from (noted [] (definition.called_in (block_of body.now))) (reverse (map function_of above.now))) }
{
    let mut names = IndexSet::new(alloc);
    note_called(alloc, &mut names, body)?;
    let mut needed = Vec::new(alloc);
    let mut left = above;
    while let Some((function, before)) = left.split_last() {
        if is_noted(&names, function.name.as_str()) {
            note_called(alloc, &mut names, &function.body)?;
            needed.push(function)?;
        }
        left = before;
    }
    Ok(needed)
}

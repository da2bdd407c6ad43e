ghost use Rattle.std.specs.Prelude.{◌≡◌, map, IfOk};
ghost use Rattle.sd_graph.specs.TreeFold.{guard_tree, exit_tree};

use crate::link::{self, Link};
use crate::tasklet::Tasklet;
use sd_list::{NoMemory, Sequence};
use sd_range::Affine;
use std::alloc::Global;

/// A condition: the elements that it reads, and code that assigns its value to its one output.
#[derive(Drop)]
pub struct Guard {
    pub line: u32,
    pub reads: Sequence<Link>,
    pub code: Tasklet,
}

impl Guard {
    /// The same condition once more.
    pub fn copy_of(&self, alloc: Global) -> Result<Guard, NoMemory>
        ensures { IfOk result (λ copy. guard_tree copy ≡ guard_tree self.now) }
    {
        let reads = link::copied(alloc, self.reads.as_slice())?;
        Ok(Guard {
            line: self.line,
            reads: Sequence::from(reads),
            code: self.code.copy_of(alloc)?,
        })
    }
}

/// A transition out of a state.
#[derive(Drop)]
pub struct Exit {
    /// The state that it leads to.
    pub to: u32,
    /// Whether it is marked: it closes a loop, and spends a turn.
    pub back: bool,
    /// Without a condition it may always be taken.
    pub when: Option<Guard>,
    /// The variables that it sets, each to the value of its expression at the values before the
    /// transition.
    pub set: Sequence<(u32, Affine)>,
}

impl Exit {
    /// The same transition once more.
    pub fn copy_of(&self, alloc: Global) -> Result<Exit, NoMemory>
        ensures { IfOk result (λ copy. exit_tree copy ≡ exit_tree self.now) }
    {
        let when = match &self.when {
            None => None,
            Some(guard) => Some(guard.copy_of(alloc)?),
        };
        let set = copied_assignments(alloc, self.set.as_slice())?;
        Ok(Exit {
            to: self.to,
            back: self.back,
            when,
            set: Sequence::from(set),
        })
    }
}

/// The same variables, each with its value, once more.
fn copied_assignments(
    alloc: Global,
    assignments: &[(u32, Affine)],
) -> Result<Vec<(u32, Affine)>, NoMemory>
    ensures { IfOk result (λ copy. copy.items ≡ assignments.now) }
{
    let mut copy = Vec::with_capacity(alloc, assignments.len())?;
    for (variable, value) in assignments {
        copy.push((*variable, value.copy_of(alloc)?))?;
    }
    Ok(copy)
}

/// The same transitions once more.
pub(crate) fn copied(alloc: Global, exits: &[Exit]) -> Result<Vec<Exit>, NoMemory>
    ensures { IfOk result (λ copy. map exit_tree copy.items ≡ map exit_tree exits.now) }
{
    let mut copy = Vec::with_capacity(alloc, exits.len())?;
    for exit in exits {
        copy.push(exit.copy_of(alloc)?)?;
    }
    Ok(copy)
}

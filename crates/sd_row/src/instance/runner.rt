ghost use Rattle.std.specs.Prelude.{◌≡◌, ◌+◌, ◌++◌, List, length, map, take, replicate, IfOk, OnOk, IsTrue};
ghost use Rattle.std.specs.Option.{MatchOption};
ghost use Rattle.std.specs.Bool.{⊤};
ghost use Rattle.sd_graph.specs.PlainTree.{TaskletTree, GraphTree};
ghost use Rattle.sd_graph.specs.TreeFold.{tasklet_tree};
ghost use Rattle.sd_graph.specs.Context.{link_extents};
ghost use Rattle.sd_graph.specs.declared.link.Link.{Link as LinkNow};
ghost use Rattle.sd_tcode.specs.tcode.Compiled.{Compiled};
ghost use Rattle.sd_tcode.specs.tcode.Held.{IsReady, given};
ghost use Rattle.sd_scope.specs.scope.Standing.{context_of};
ghost use Rattle.sd_scope.specs.declared.scope.base.Base.{Base as BaseNow};
ghost use Rattle.sd_row.specs.instance.Fit.{IsRunner, IsCodeFor};

use crate::instance::fit::{are_for_each, are_scalar_links, are_scalar_ports};
use sd_compile::{compile, is_named};
use sd_graph::{Link, Tasklet};
use sd_list::NoMemory;
use sd_scope::{Scope, connector_extents};
use sd_tcode::{Code, Frame};
use std::alloc::Global;

/// The flat code of a tasklet, with room for its runs.
#[derive(Drop)]
pub struct Runner {
    pub code: Code,
    pub frame: Frame,
}

impl Runner {
    /// That of a tasklet with a link for each connector; `None` of another one. An input has room for one element.
    pub fn made(
        alloc: Global,
        tasklet: &Tasklet,
        ins: &[Link],
        outs: &[Link],
    ) -> Result<Option<Runner>, NoMemory>
        ensures { IfOk result (λ runner. MatchOption runner ⊤ (λ runner. IsCodeFor (tasklet_tree tasklet.now) ins.now outs.now runner.code runner.frame)) }
    {
        if !is_named(tasklet) || !are_for_each(tasklet, ins, outs) {
            return Ok(None);
        }
        let code = compile(alloc, tasklet)?;
        let widest = ones(alloc, code.input_count())?;
        let frame = Frame::reserve(alloc, &code, widest.as_slice())?;
        Ok(Some(Runner { code, frame }))
    }

    /// That of a tasklet with a link for each connector, whose inputs are scalars; `None` of another one.
    pub fn of(
        alloc: Global,
        tasklet: &Tasklet,
        ins: &[Link],
        outs: &[Link],
    ) -> Result<Option<Runner>, NoMemory>
        ensures { IfOk result (λ runner. MatchOption runner ⊤ (λ runner. IsRunner (tasklet_tree tasklet.now) ins.now outs.now runner.code runner.frame)) }
    {
        if !are_scalar_ports(tasklet.ins.as_slice()) || !are_scalar_links(ins) {
            return Ok(None);
        }
        Runner::made(alloc, tasklet, ins, outs)
    }

    /// Gives the connectors the extents of their links where a scope stands; `false` where one may not have them.
    pub fn shape(
        &mut self,
        alloc: Global,
        ins: &[Link],
        outs: &[Link],
        scope: &Scope,
    ) -> Result<bool, NoMemory>
        ensures extents { (tree : TaskletTree) → IsRunner tree ins.now outs.now self.old.code self.old.frame
            → IfOk result (λ done. IsTrue done → (program : GraphTree) (base : BaseNow) → (given self.new.frame).extents ≡ map (link_extents (context_of program base scope.now)) (ins.now ++ outs.now)) }
        ensures runner { (tree : TaskletTree) → IsRunner tree ins.now outs.now self.old.code self.old.frame
            → OnOk result (IsRunner tree ins.now outs.now self.new.code self.new.frame) }
    {
        let Ok(inputs) = u32::try_from(ins.len()) else {
            return Err(NoMemory);
        };
        if !shape_links(alloc, &mut self.frame, 0, ins, scope)? {
            return Ok(false);
        }
        shape_links(alloc, &mut self.frame, inputs, outs, scope)
    }
}

/// One element for each input.
pub fn ones(alloc: Global, count: usize) -> Result<Vec<u64>, NoMemory>
    ensures { IfOk result (λ widest. widest.items ≡ replicate count 1) }
{
    Ok(vec![in alloc; 1u64; count]?)
}

/// The same numbers in 64 bits; `None` where one is too large.
pub(crate) fn narrowed(alloc: Global, numbers: &[u128]) -> Result<Option<Vec<u64>>, NoMemory>
    ensures { IfOk result (λ narrow. MatchOption narrow ⊤ (λ narrow. narrow.items ≡ numbers.now)) }
{
    let mut narrow = Vec::with_capacity(alloc, numbers.len())?;
    for number in numbers {
        match u64::try_from(*number) {
            Ok(number) => narrow.push(number)?,
            Err(_) => return Ok(None),
        }
    }
    Ok(Some(narrow))
}

/// Gives the connectors from one on the extents of these links where a scope stands; `false` where one may not have them.
fn shape_links(
    alloc: Global,
    frame: &mut Frame,
    first: u32,
    links: &[Link],
    scope: &Scope,
) -> Result<bool, NoMemory>
    ensures extents { IfOk result (λ done. IsTrue done → (program : GraphTree) (base : BaseNow)
        → take (first + length links.now) (given frame.new).extents ≡ take first (given frame.old).extents ++ map (link_extents (context_of program base scope.now)) links.now) }
    ensures count { OnOk result (length (given frame.new).extents ≡ length (given frame.old).extents) }
    ensures values { OnOk result ((given frame.new).values ≡ (given frame.old).values) }
    ensures variables { OnOk result ((given frame.new).variables ≡ (given frame.old).variables) }
    ensures ready { OnOk result ((code : Compiled) → IsReady code frame.old → IsReady code frame.new) }
{
    let mut connector = first;
    for link in links {
        let extents = connector_extents(alloc, scope, link)?;
        let Some(extents) = narrowed(alloc, extents.as_slice())? else {
            return Ok(false);
        };
        if !frame.shape(connector, extents.as_slice()) {
            return Ok(false);
        }
        connector = connector.checked_add(1).ok_or(NoMemory)?;
    }
    Ok(true)
}

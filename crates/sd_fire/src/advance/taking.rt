ghost use Rattle.std.specs.Prelude.{◌≡◌, ◌∷◌, ℕ, true, IfOk};
ghost use Rattle.sd_work.specs.Moves.{Path};
ghost use Rattle.sd_graph.specs.PlainTree.{consume_scope};
ghost use Rattle.sd_graph.specs.TreeFold.{graph_tree, item_trees};
ghost use Rattle.sd_scope.specs.scope.Standing.{context_of};
ghost use Rattle.sd_left.specs.left.Tells.{bodies_tell};
ghost use Rattle.sd_fire.specs.advance.Right.{AreElementsFired};

use crate::begin::begin_body;
use sd_graph::{Item, Sdfg};
use sd_left::Bodies;
use sd_list::NoMemory;
use sd_mem::{End, Machine, Station};
use sd_scope::{Base, Scope, Taken, take_value};
use std::alloc::Global;

/// The take of the value at a position of the stream of a consume scope that stands here: its element begins, behind those in work.
pub fn take_element(
    alloc: Global,
    stream: Station,
    active: &mut Bodies,
    position: usize,
    body: &[Item],
    element: u32,
    private: &[u32],
    graph: &Sdfg,
    base: &Base,
    scope: &Scope,
    machine: &mut Machine,
) -> Result<End, NoMemory>
    ensures { IfOk result (λ end. (from : ℕ) (path : Path) → (bodies_tell active.old).is_right ≡ true → AreElementsFired stream active.old (consume_scope from element private.now (item_trees body.now)) (context_of (graph_tree graph.now) base.now scope.now) (0 ∷ position ∷ path) machine.old end machine.new active.new) }
{
    let taken = take_value(
        alloc, stream, position, element, private, graph, scope, machine,
    )?;
    let Some(taken) = taken else {
        return Ok(End::Finished);
    };
    let Taken {
        value,
        own,
        scope: inside,
    } = taken;
    let at = vec![in alloc; i128::from(value); 1]?;
    let begun = begin_body(alloc, body, at, own, graph, base, &inside, machine)?;
    active.push(begun)?;
    Ok(End::Finished)
}

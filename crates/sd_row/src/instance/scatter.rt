//! Code that writes one value at one place of an output.
ghost use Rattle.std.specs.Prelude.{◌≡◌, ◌≢◌, ◌-◌, ◌<◌, ◌≤◌, ℕ, List, pos, length, true, Some, None, slice_get, IfOk, OnOk, IsTrue};
ghost use Rattle.std.specs.Option.{MatchOption};
ghost use Rattle.std.specs.Bool.{⊤};
ghost use Rattle.std.specs.List.{AllByRecursion};
ghost use Rattle.sd_work.specs.Memory.{Memory};
ghost use Rattle.sd_work.specs.Change.{write, apply};
ghost use Rattle.sd_graph.specs.PlainTree.{TaskletTree};
ghost use Rattle.sd_graph.specs.TreeFold.{graph_tree};
ghost use Rattle.sd_graph.specs.Context.{Context};
ghost use Rattle.sd_graph.specs.declared.link.Link.{Link as LinkNow};
ghost use Rattle.sd_tcode.specs.declared.op.op.Op.TheVariants as ops;
ghost use Rattle.sd_tcode.specs.tcode.Compiled.{IsSafe};
ghost use Rattle.sd_tcode.specs.tcode.Held.{IsReady, given};
ghost use Rattle.sd_scope.specs.scope.Standing.{context_of};
ghost use Rattle.sd_leaves.specs.leaves.Done.{IsDone, instance_work};
ghost use Rattle.sd_scope.specs.even.Even.{is_scalar};
ghost use Rattle.sd_row.specs.row.Row.{reference_on};
ghost use Rattle.sd_row.specs.row.Point.{IsOver};
ghost use Rattle.sd_row.specs.instance.Known.{IsSetUp, AreKnown, HasRoom, AreOutward};
ghost use Rattle.sd_row.specs.instance.Scatter.{operand_on, ops_of, IsPut, IsScatter};

use crate::instance::accesses::Accesses;
use crate::instance::instance::run_instance;
use crate::instance::target::Target;
use crate::row::Track;
use sd_graph::{FaultKind, Link, Sdfg};
use sd_list::NoMemory;
use sd_mem::Machine;
use sd_num::Resolution;
use sd_scope::{Base, Scope};
use sd_tcode::{Code, Frame, Op, Spaced};
use std::alloc::Global;

/// What an instruction puts into a register: what is read, the value of a variable, or a number.
#[derive(Clone, Copy)]
pub enum Operand {
    Read(Track),
    Variable(Spaced),
    Number(i64),
}

/// Code that writes a value at an index of an output, by the elements that the output has at so many places.
#[derive(Clone, Copy)]
pub struct Scatter {
    pub index: Operand,
    pub value: Operand,
    pub by: Option<Resolution>,
    pub to: Track,
    pub count: u32,
}

/// The instructions of such code: the ones that put the index and the value into registers, and what the others name.
#[derive(Clone, Copy)]
struct Parts {
    index: Op,
    value: Op,
    connector: u32,
    at: u32,
    to: u32,
}

/// Those of four instructions, where they are such code.
fn parts_of(ops: &[Op]) -> Option<Parts>
    ensures ops { MatchOption result ⊤ (λ parts. ops.now ≡ ops_of parts) }
    ensures differ { MatchOption result ⊤ (λ parts. parts.at ≢ parts.to) }
{
    if ops.len() != 4 {
        return None;
    }
    match (ops[1], ops[3]) {
        (
            Op::Inside {
                dims: 1,
                connector,
                first: at,
            },
            Op::Keep {
                dims: 1,
                connector: output,
                first,
                value: to,
            },
        ) if output == connector && first == at && at != to => Some(Parts {
            index: ops[0],
            value: ops[2],
            connector,
            at,
            to,
        }),
        _ => None,
    }
}

/// Whether code keeps its effects, and has a register for each read and each variable.
fn is_for(code: &Code, accesses: &Accesses) -> bool
    ensures plain { IsTrue result → code.now.plain ≡ None }
    ensures inputs { IsTrue result → code.now.layout.inputs ≡ length accesses.now.reads.items }
    ensures variables { IsTrue result → code.now.layout.variables ≡ length accesses.now.variables.items }
    ensures safe { IsSafe code.now }
{
    code.input_count() == accesses.reads.len()
        && code.layout().variables as usize == accesses.variables.len()
        && code.plain().is_none()
}

/// What the register of a number holds, where that is read or the value of a variable.
fn held_in(register: usize, accesses: &Accesses) -> Option<Operand>
    ensures { MatchOption result ⊤ (λ operand. (to : ℕ) → IsPut accesses.now (ops.Copy to register) to operand) }
{
    match register.checked_sub(accesses.reads.len()) {
        None => Some(Operand::Read(accesses.reads[register])),
        Some(number) => match accesses.variables.as_slice().get(number) {
            Some(numbers) => Some(Operand::Variable(*numbers)),
            None => None,
        },
    }
}

/// What an instruction puts into this register.
fn operand_of(op: Op, to: u32, accesses: &Accesses) -> Option<Operand>
    ensures { MatchOption result ⊤ (IsPut accesses.now op to) }
{
    match op {
        Op::Number { to: there, value } if there == to => Some(Operand::Number(value)),
        Op::Copy { to: there, from } if there == to => held_in(from as usize, accesses),
        _ => None,
    }
}

/// Where the effects on a connector go, where it is an output.
fn target_of(accesses: &Accesses, connector: u32) -> Option<Target>
    ensures output { MatchOption result ⊤ (λ target. length accesses.now.reads.items ≤ connector) }
    ensures target { MatchOption result ⊤ (λ target. slice_get accesses.now.targets.items (connector - length accesses.now.reads.items) ≡ Some target) }
{
    let number = (connector as usize).checked_sub(accesses.reads.len())?;
    match accesses.targets.as_slice().get(number) {
        Some(target) => Some(*target),
        None => None,
    }
}

impl Scatter {
    /// That of code with these accesses; `None` of other code.
    pub fn of(code: &Code, accesses: &Accesses) -> Option<Scatter>
        ensures { MatchOption result ⊤ (IsScatter code.now accesses.now) }
    {
        if !is_for(code, accesses) {
            return None;
        }
        let parts = parts_of(code.ops())?;
        let index = operand_of(parts.index, parts.at, accesses)?;
        let value = operand_of(parts.value, parts.to, accesses)?;
        match target_of(accesses, parts.connector)? {
            Target::Among(by, to, count) => Some(Scatter {
                index,
                value,
                by,
                to,
                count,
            }),
            _ => None,
        }
    }
}

/// The value of an operand at a point.
#[inline(always)]
fn value_of(operand: &Operand, k: u32, machine: &Machine) -> i64
    ensures { result ≡ operand_on k machine.now.memories operand.now }
{
    match operand {
        Operand::Read(track) => machine.look(track.cell(k)),
        Operand::Variable(numbers) => numbers.at(k),
        Operand::Number(value) => *value,
    }
}

/// A number as a place, where it is below a bound.
#[inline(always)]
fn place_of(number: i64, count: u32) -> Option<u32>
    ensures is { MatchOption result ⊤ (λ place. number ≡ pos place) }
    ensures below { MatchOption result ⊤ (λ place. place < count) }
{
    let place = u32::try_from(number).ok()?;
    if place < count { Some(place) } else { None }
}

/// Writes the value of such code at a point; `None` where its place is not below the count, and then nothing changes.
#[inline(always)]
fn scatter_at(scatter: &Scatter, k: u32, machine: &mut Machine) -> Option<u32>
    ensures place { MatchOption result ⊤ (λ place. operand_on k machine.old.memories scatter.now.index ≡ pos place) }
    ensures below { MatchOption result ⊤ (λ place. place < scatter.now.count) }
    ensures memories { MatchOption result (machine.new ≡ machine.old) (λ place. machine.new.memories ≡ apply (write (reference_on scatter.now.to place) scatter.now.by (operand_on k machine.old.memories scatter.now.value)) machine.old.memories) }
    ensures turns { machine.new.turns ≡ machine.old.turns }
{
    let place = place_of(value_of(&scatter.index, k, machine), scatter.count)?;
    let value = value_of(&scatter.value, k, machine);
    machine.write(scatter.to.cell(place), scatter.by, value);
    Some(place)
}

/// What `run_instance` does, by one write where the code is known to come to that.
#[inline(always)]
pub fn run_directly(
    alloc: Global,
    scatter: &Option<Scatter>,
    accesses: &Accesses,
    code: &Code,
    frame: &mut Frame,
    k: u32,
    outs: &[Link],
    graph: &Sdfg,
    base: &Base,
    scope: &Scope,
    machine: &mut Machine,
) -> Result<Option<FaultKind>, NoMemory>
    requires scatter { MatchOption scatter.now ⊤ (IsScatter code.now accesses.now) }
    requires ready { IsReady code.now frame.old }
    requires room { HasRoom (length accesses.now.reads.items) (length accesses.now.variables.items) (given frame.old) }
    ensures done { IfOk result (λ fault. (here : Context) (tree : TaskletTree) (ins : List LinkNow) → AllByRecursion (λ link. is_scalar link.memlet.subset.dims ≡ true) ins → IsSetUp tree ins outs.now code.now (given frame.old) here
        → AreKnown tree ins outs.now k here (context_of (graph_tree graph.now) base.now scope.now) accesses.now → IsDone (instance_work here tree ins outs.now) machine.old fault machine.new) }
    ensures own { IfOk result (λ fault. (here : Context) (tree : TaskletTree) (ins : List LinkNow) (own : Memory) → AllByRecursion (λ link. is_scalar link.memlet.subset.dims ≡ true) ins → IsSetUp tree ins outs.now code.now (given frame.old) here
        → AreKnown tree ins outs.now k here (context_of (graph_tree graph.now) base.now scope.now) accesses.now → AreOutward here outs.now → fault ≡ None → IsOver own machine.old → IsOver own machine.new) }
    ensures ready { OnOk result (IsReady code.now frame.new) }
    ensures room { OnOk result (HasRoom (length accesses.now.reads.items) (length accesses.now.variables.items) (given frame.new)) }
    ensures extents { OnOk result ((given frame.new).extents ≡ (given frame.old).extents) }
{
    if let Some(scatter) = scatter {
        if scatter_at(scatter, k, machine).is_some() {
            return Ok(None);
        }
    }
    run_instance(
        alloc, accesses, code, frame, k, outs, graph, base, scope, machine,
    )
}

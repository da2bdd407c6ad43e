ghost use Rattle.std.specs.Prelude.{◌≡◌, ◌++◌, map, IfOk, option_map};
ghost use Rattle.sd_graph.specs.TreeFold.{tasklet_tree};
ghost use Rattle.sd_tcode.specs.tcode.Named.{IsNamed};
ghost use Rattle.sd_tcode.specs.tcode.Emitted as emitted;
ghost use Rattle.sd_tcode.specs.tcode.Compiled as compiled;
ghost use Rattle.sd_tcode.specs.tcode.Compiled.{IsCodeOf};

use crate::emit::behind;
use crate::emit_act::{emit_acts, emit_locals, local_register};
use crate::plain::plain_outputs;
use crate::reach::{most_kept, reach_all};
use sd_graph::{Port, Tasklet};
use sd_list::NoMemory;
use sd_tcode::{Code, Layout};
use std::alloc::Global;

/// A count as the numbers of registers have it. There is no room for 2^32 registers.
fn count_of(count: usize) -> Result<u32, NoMemory>
    ensures { IfOk result (λ number. number ≡ count) }
{
    u32::try_from(count).map_err(|_| NoMemory)
}

/// How many registers the code has for each thing that it names.
fn layout_of(code: &Tasklet) -> Result<Layout, NoMemory>
    ensures { IfOk result (λ layout. layout ≡ emitted.layout_of (tasklet_tree code.now)) }
{
    let inputs = count_of(code.ins.len())?;
    Ok(Layout {
        inputs,
        variables: count_of(code.variables.len())?,
        connectors: behind(inputs, count_of(code.outs.len())?)?,
        locals: code.locals,
    })
}

/// The dimensions of each connector.
fn dims_of(alloc: Global, ins: &[Port], outs: &[Port]) -> Result<Vec<u32>, NoMemory>
    ensures { IfOk result (λ dims. dims.items ≡ map (λ port. port.dims) (ins.now ++ outs.now)) }
{
    let mut dims = Vec::new(alloc);
    for port in ins {
        dims.push(port.dims)?;
    }
    for port in outs {
        dims.push(port.dims)?;
    }
    Ok(dims)
}

/// How many outputs plain code has.
fn count_plain(plain: &Option<Vec<u32>>) -> usize
    ensures { result ≡ compiled.count_plain (option_map (λ order. order.items) plain.now) }
{
    match plain {
        Some(order) => order.len(),
        None => 0,
    }
}

/// The flat code of a tasklet.
pub fn compile(alloc: Global, code: &Tasklet) -> Result<Code, NoMemory>
    requires { IsNamed (tasklet_tree code.now) }
    ensures { IfOk result (IsCodeOf (tasklet_tree code.now)) }
{
    let layout = layout_of(code)?;
    let plain = plain_outputs(alloc, code)?;
    let mut ops = Vec::new(alloc);
    emit_locals(&mut ops, local_register(layout, 0)?, code.locals)?;
    emit_acts(&mut ops, layout, plain.is_some(), &code.body)?;
    let outputs = behind(layout.variables, layout.connectors)?;
    let dims = dims_of(alloc, &code.ins, &code.outs)?;
    let registers = reach_all(&ops).max(outputs as usize);
    let slots = most_kept(&ops) + count_plain(&plain);
    Ok(Code::new(ops, layout, dims, registers, slots, plain))
}

ghost use Rattle.std.specs.Prelude.{◌≡◌, ◌+◌, ◌++◌, IfOk, OnOk};
ghost use Rattle.sd_graph.specs.PlainTree.{assign};
ghost use Rattle.sd_graph.specs.TreeFold.{act_tree, act_trees, value_tree, value_trees};
ghost use Rattle.sd_tcode.specs.tcode.Named.{count_of};
ghost use Rattle.sd_tcode.specs.tcode.Emitted as emitted;

use crate::emit::{behind, dims_of, emit_condition, emit_value, emit_values, is_scalar, join, put};
use sd_graph::{Act, Value};
use sd_list::NoMemory;
use sd_tcode::{Layout, Op};

/// The register of a local.
pub(crate) fn local_register(layout: Layout, local: u32) -> Result<u32, NoMemory>
    ensures { IfOk result (λ register. register ≡ emitted.local_register layout local) }
{
    behind(behind(layout.variables, layout.connectors)?, local)
}

/// The first register that nothing has.
fn free_register(layout: Layout) -> Result<u32, NoMemory>
    ensures { IfOk result (λ register. register ≡ emitted.free_register layout) }
{
    behind(behind(layout.variables, layout.connectors)?, layout.locals)
}

/// An assignment to an output connector.
fn emit_assignment(
    ops: &mut Vec<Op>,
    layout: Layout,
    plain: bool,
    connector: u32,
    at: &[Value],
    value: &Value,
) -> Result<(), NoMemory>
    ensures { OnOk result (ops.new.items ≡ ops.old.items ++ emitted.act_code plain layout (assign connector (value_trees at.now) (value_tree value.now))) }
{
    let first = free_register(layout)?;
    let dims = dims_of(at)?;
    let to = behind(layout.variables, connector)?;
    emit_values(ops, layout, at, first)?;
    emit_check(ops, dims, connector, first, at)?;
    emit_value(ops, layout, value, to, behind(first, u32::from(dims))?)?;
    if plain {
        return Ok(());
    }
    put(
        ops,
        Op::Keep {
            dims,
            connector,
            first,
            value: to,
        },
    )
}

/// An index is checked; a scalar has none.
fn emit_check(
    ops: &mut Vec<Op>,
    dims: u8,
    connector: u32,
    first: u32,
    at: &[Value],
) -> Result<(), NoMemory>
    requires { dims ≡ count_of (value_trees at.now) }
    ensures { OnOk result (ops.new.items ≡ ops.old.items ++ emitted.inside_code connector first (value_trees at.now)) }
{
    if is_scalar(at) {
        return Ok(());
    }
    put(
        ops,
        Op::Inside {
            dims,
            connector,
            first,
        },
    )
}

/// A statement.
#[cycle(acts)]
fn emit_act(ops: &mut Vec<Op>, layout: Layout, plain: bool, act: &Act) -> Result<(), NoMemory>
    ensures { OnOk result (ops.new.items ≡ ops.old.items ++ emitted.act_code plain layout (act_tree act.now)) }
{
    match act {
        Act::Local { local, value } => {
            let to = local_register(layout, *local)?;
            emit_value(ops, layout, value, to, free_register(layout)?)
        }
        Act::Out {
            connector,
            at,
            value,
        } => emit_assignment(ops, layout, plain, *connector, at, value),
        Act::When { when, body, other } => {
            let jump = emit_condition(ops, layout, when, free_register(layout)?)?;
            let test = ops.len();
            put(ops, jump)?;
            emit_acts(ops, layout, plain, body)?;
            let middle = ops.len();
            put(ops, Op::Skip { count: 0 })?;
            emit_acts(ops, layout, plain, other)?;
            join(ops, jump, test, middle)
        }
    }
}

/// Statements one after another.
#[cycle(acts)]
pub(crate) fn emit_acts(
    ops: &mut Vec<Op>,
    layout: Layout,
    plain: bool,
    acts: &[Act],
) -> Result<(), NoMemory>
    ensures { OnOk result (ops.new.items ≡ ops.old.items ++ emitted.acts_code plain layout (act_trees acts.now)) }
{
    for act in acts {
        emit_act(ops, layout, plain, act)?;
    }
    Ok(())
}

/// The locals begin at 0.
pub(crate) fn emit_locals(ops: &mut Vec<Op>, first: u32, count: u32) -> Result<(), NoMemory>
    ensures { OnOk result (ops.new.items ≡ ops.old.items ++ emitted.locals_code first count) }
{
    for k in 0..count {
        let to = behind(first, k)?;
        put(ops, Op::Number { to, value: 0 })?;
    }
    Ok(())
}

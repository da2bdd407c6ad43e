//! A row from its ends.
ghost use Rattle.std.specs.Prelude.{◌≡◌, ℕ, ◌≤◌, ◌<◌, ◌+◌, ◌-◌, ℤ, List, [], ◌∷◌, ◌++◌, map, length, true, Some, IfOk};
ghost use Rattle.std.specs.Option.{MatchOption};
ghost use Rattle.std.specs.Bool.{⊤};
ghost use Rattle.std.specs.List.{AllByRecursion};
ghost use Rattle.sd_num.specs.Wrapped.{wrapped};
ghost use Rattle.sd_range.specs.Affine.{variable_value};
ghost use Rattle.sd_graph.specs.Context.{Context, link_element};
ghost use Rattle.sd_graph.specs.Unfold.{pending_of};
ghost use Rattle.sd_tcode.specs.tcode.Outputs.{output_effects};
ghost use Rattle.sd_scope.specs.even.Even.{is_scalar};
ghost use Rattle.sd_rows.specs.declared.rows.steps.Steps.{Steps as StepsNow};
ghost use Rattle.sd_rows.specs.rows.Along.{IsAlong, IsFromTo};
ghost use Rattle.sd_rows.specs.rows.Map.{tree_of, standing};
ghost use Rattle.sd_tcode.specs.columns.Columns.{value_on};
ghost use Rattle.sd_row.specs.row.Row.{IsAt, order_of, reference_on, write_on};

use crate::rows::map::TaskMap;
use crate::rows::spacing::spaced_between;
use crate::rows::steps::Steps;
use sd_graph::Link;
use sd_list::NoMemory;
use sd_range::Env;
use sd_row::{Row, Track, Write, element_of_variable, is_stream};
use sd_scope::{Scope, link_cell};
use sd_tcode::Spaced;
use std::alloc::Global;

/// The row between two scopes that stand at its ends, so many points apart; `None` where an access is outside at one of them.
pub(crate) fn row_between(
    alloc: Global,
    task: &TaskMap<'_>,
    order: &[u32],
    steps: &Steps,
    gaps: u32,
    first: &Scope,
    last: &Scope,
) -> Result<Option<Row>, NoMemory>
    requires scalars { AllByRecursion (λ link. is_scalar link.memlet.subset.dims ≡ true) (task.now.ins.now ++ task.now.outs.now) }
    ensures order { IfOk result (λ row. MatchOption row ⊤ (λ row. order_of row ≡ order.now)) }
    ensures reads { IfOk result (λ row. MatchOption row ⊤ (λ row. length row.reads.items ≡ length task.now.ins.now)) }
    ensures variables { IfOk result (λ row. MatchOption row ⊤ (λ row. length row.variables.items ≡ length (tree_of task.now).variables)) }
    ensures at { IfOk result (λ row. MatchOption row ⊤ (λ row. (values : List ℤ) (context : ℕ → Context)
        → IsFromTo steps.now gaps (standing task.now first.now) (standing task.now last.now) values context → (k : ℕ) → k ≤ gaps → IsAt (tree_of task.now) task.now.ins.now task.now.outs.now row k (context k))) }
{
    let Some(reads) = tracks_of(alloc, task, task.ins, gaps, first, last)? else {
        return Ok(None);
    };
    let variables = values_of_variables(
        alloc,
        task.tasklet.variables.as_slice(),
        steps,
        &first.values,
    )?;
    let Some(writes) = writes_of(alloc, task, order, gaps, first, last)? else {
        return Ok(None);
    };
    Ok(Some(Row {
        reads,
        variables,
        writes,
    }))
}

/// The track of a link of one element.
pub(crate) fn track_of(
    alloc: Global,
    task: &TaskMap<'_>,
    link: &Link,
    gaps: u32,
    first: &Scope,
    last: &Scope,
) -> Result<Option<Track>, NoMemory>
    ensures { IfOk result (λ track. MatchOption track ⊤ (λ track. (steps : StepsNow) (values : List ℤ) (context : ℕ → Context)
        → IsFromTo steps gaps (standing task.now first.now) (standing task.now last.now) values context → (k : ℕ) → k ≤ gaps → link_element (context k) link.now [] ≡ Some (reference_on track k))) }
{
    let Some(begin) = link_cell(alloc, task.graph, task.base, first, link, &[])? else {
        return Ok(None);
    };
    let Some(end) = link_cell(alloc, task.graph, task.base, last, link, &[])? else {
        return Ok(None);
    };
    match spaced_between(begin.element, end.element, gaps, 0) {
        Some(elements) => Ok(Some(Track {
            station: begin.station,
            elements,
        })),
        None => Ok(None),
    }
}

/// The tracks of links of one element each.
pub(crate) fn tracks_of(
    alloc: Global,
    task: &TaskMap<'_>,
    links: &[Link],
    gaps: u32,
    first: &Scope,
    last: &Scope,
) -> Result<Option<Vec<Track>>, NoMemory>
    ensures tracks { IfOk result (λ tracks. MatchOption tracks ⊤ (λ tracks. (steps : StepsNow) (values : List ℤ) (context : ℕ → Context)
        → IsFromTo steps gaps (standing task.now first.now) (standing task.now last.now) values context → (k : ℕ) → k ≤ gaps → map (λ link. link_element (context k) link []) links.now ≡ map (λ track. Some (reference_on track k)) tracks.items)) }
    ensures count { IfOk result (λ tracks. MatchOption tracks ⊤ (λ tracks. length tracks.items ≡ length links.now)) }
{
    let mut tracks = Vec::with_capacity(alloc, links.len())?;
    for link in links {
        let Some(track) = track_of(alloc, task, link, gaps, first, last)? else {
            return Ok(None);
        };
        tracks.push(track)?;
    }
    Ok(Some(tracks))
}

/// The values of a tasklet's variables.
pub(crate) fn values_of_variables(
    alloc: Global,
    variables: &[u32],
    steps: &Steps,
    first: &Env,
) -> Result<Vec<Spaced>, NoMemory>
    ensures values { IfOk result (λ numbers. (values : List ℤ) (context : ℕ → Context) → IsAlong steps.now values context → first.now.values ≡ (context 0).values
        → (k : ℕ) → map (λ variable. wrapped (variable_value (context k).values variable)) variables.now ≡ map (λ numbers. value_on numbers k) numbers.items) }
    ensures count { IfOk result (λ numbers. length numbers.items ≡ length variables.now) }
{
    let mut numbers = Vec::with_capacity(alloc, variables.len())?;
    for variable in variables {
        numbers.push(value_of_variable(*variable, steps, first))?;
    }
    Ok(numbers)
}

/// The values of a variable: the last parameter takes its steps, and any other keeps its value.
fn value_of_variable(variable: u32, steps: &Steps, first: &Env) -> Spaced
    ensures { (values : List ℤ) (context : ℕ → Context) → IsAlong steps.now values context → first.now.values ≡ (context 0).values
        → (k : ℕ) → wrapped (variable_value (context k).values variable) ≡ value_on result k }
{
    if variable == steps.variable {
        return Spaced {
            first: steps.first,
            step: steps.step,
        };
    }
    Spaced {
        first: element_of_variable(variable, first),
        step: 0,
    }
}

/// The writes of the outputs in this order.
fn writes_of(
    alloc: Global,
    task: &TaskMap<'_>,
    order: &[u32],
    gaps: u32,
    first: &Scope,
    last: &Scope,
) -> Result<Option<Vec<Write>>, NoMemory>
    ensures order { IfOk result (λ writes. MatchOption writes ⊤ (λ writes. map (λ write. write.connector) writes.items ≡ order.now)) }
    ensures at { IfOk result (λ writes. MatchOption writes ⊤ (λ writes. (steps : StepsNow) (values : List ℤ) (context : ℕ → Context)
        → IsFromTo steps gaps (standing task.now first.now) (standing task.now last.now) values context → (k : ℕ) → k ≤ gaps
        → (value : ℕ → ℤ) → map (pending_of (context k) task.now.ins.now task.now.outs.now) (output_effects value order.now) ≡ map (write_on value k) writes.items)) }
{
    let mut writes = Vec::with_capacity(alloc, order.len())?;
    for connector in order {
        let Some(write) = write_of(alloc, task, *connector, gaps, first, last)? else {
            return Ok(None);
        };
        writes.push(write)?;
    }
    Ok(Some(writes))
}

/// The write of an output; `None` where it is pushed into a stream.
fn write_of(
    alloc: Global,
    task: &TaskMap<'_>,
    connector: u32,
    gaps: u32,
    first: &Scope,
    last: &Scope,
) -> Result<Option<Write>, NoMemory>
    ensures connector { IfOk result (λ write. MatchOption write ⊤ (λ write. write.connector ≡ connector)) }
    ensures at { IfOk result (λ write. MatchOption write ⊤ (λ write. (steps : StepsNow) (values : List ℤ) (context : ℕ → Context)
        → IsFromTo steps gaps (standing task.now first.now) (standing task.now last.now) values context → (k : ℕ) → k ≤ gaps
        → (value : ℕ → ℤ) → pending_of (context k) task.now.ins.now task.now.outs.now (record { connector = connector; at = []; value = value connector }) ≡ write_on value k write)) }
{
    let Some(output) = (connector as usize).checked_sub(task.ins.len()) else {
        return Ok(None);
    };
    let Some(link) = task.outs.get(output) else {
        return Ok(None);
    };
    if is_stream(task.graph, link.memlet.container) {
        return Ok(None);
    }
    match track_of(alloc, task, link, gaps, first, last)? {
        Some(to) => Ok(Some(Write {
            connector,
            by: link.memlet.resolution,
            to,
        })),
        None => Ok(None),
    }
}

ghost use Rattle.std.specs.Prelude.{◌≡◌, [], ◌∷◌, OnOk};
ghost use Rattle.sd_lex.specs.PlainTree.{while_loop, branch};
ghost use Rattle.sd_lex.specs.TreeFold.{expression_of, statement_of, block_of};
ghost use Rattle.sd_elab.specs.items.Graphs.{graph_named};
ghost use Rattle.sd_elab.specs.items.GraphsByNumber.{graphs_of};
ghost use Rattle.sd_program.specs.Bounds.{EachBound, EachSubscript};
ghost use Rattle.sd_program.specs.Every.{Every, EveryIn};
ghost use Rattle.sd_program.specs.IsAffine.{IsAffine};
ghost use Rattle.sd_program.specs.Small.{IsSmall};
ghost use Rattle.sd_elab.specs.states.BuildingOf.{threaded_of, standing_of, HasSmallContainers, without_loop_variable};
ghost use Rattle.sd_elab.specs.states.Exits.{back_to, stepped_on};
ghost use Rattle.sd_elab.specs.states.Standing as definition;
ghost use Rattle.sd_elab.specs.states.Threaded as states;

use crate::items::Graphs;
use crate::states::building::{Building, Loop};
use sd_lex::{Expr, Statement};
use sd_list::NoMemory;
use std::alloc::Global;

/// Adds the states of a statement; calls are of these graphs.
#[cycle(thread)]
fn thread(
    alloc: Global,
    graphs: &Graphs,
    building: &mut Building,
    statement: &Statement,
) -> Result<(), NoMemory>
    requires extents { HasSmallContainers building.old }
    requires affine { Every (EachBound IsAffine) (statement_of statement.now) }
    requires small { Every (EachBound IsSmall) (statement_of statement.now) }
    ensures threaded { OnOk result (threaded_of building.new ≡ states.threaded (graph_named (graphs_of graphs.now)) (statement_of statement.now) (standing_of building.old) (threaded_of building.old)) }
    ensures extents { OnOk result (HasSmallContainers building.new) }
    ensures standing { OnOk result (standing_of building.new ≡ definition.behind (statement_of statement.now) (standing_of building.old)) }
{
    match statement {
        Statement::While { line, when, body } => {
            thread_while(alloc, graphs, building, *line, when, body)
        }
        Statement::For {
            line,
            name,
            begin,
            end,
            step,
            body,
        } => {
            let begun = building.begin_loop(alloc, *line, name.as_str(), begin, end, body)?;
            thread_for(alloc, graphs, building, begun, *step, body)
        }
        Statement::If {
            line,
            when,
            body,
            other,
        } => thread_if(alloc, graphs, building, *line, when, body, other),
        _ => building.push_leaf(alloc, graphs, statement),
    }
}

/// Adds the states of a `while` loop.
#[cycle(thread)]
#[tactic(auto, using(crate::proofs::states_lemmas::StandingLemmas::while_behind))]
fn thread_while(
    alloc: Global,
    graphs: &Graphs,
    building: &mut Building,
    line: u32,
    when: &Expr,
    body: &[Statement],
) -> Result<(), NoMemory>
    requires extents { HasSmallContainers building.old }
    requires condition { EachSubscript IsSmall (expression_of when.now) }
    requires affine { EveryIn (EachBound IsAffine) (block_of body.now) }
    requires small { EveryIn (EachBound IsSmall) (block_of body.now) }
    ensures threaded { OnOk result (threaded_of building.new ≡ states.threaded (graph_named (graphs_of graphs.now)) (while_loop line (expression_of when.now) (block_of body.now)) (standing_of building.old) (threaded_of building.old)) }
    ensures extents { OnOk result (HasSmallContainers building.new) }
    ensures standing { OnOk result (standing_of building.new ≡ definition.behind (while_loop line (expression_of when.now) (block_of body.now)) (standing_of building.old)) }
{
    let header = building.state;
    building.close_to(alloc, header)?;
    building.branch_to(alloc, line, when, body)?;
    thread_all(alloc, graphs, building, body)?;
    building.close_back(alloc, header)
}

/// Adds the states of a `for` loop that has begun.
#[cycle(thread)]
fn thread_for(
    alloc: Global,
    graphs: &Graphs,
    building: &mut Building,
    begun: Loop,
    step: Option<i64>,
    body: &[Statement],
) -> Result<(), NoMemory>
    requires extents { HasSmallContainers building.old }
    requires affine { EveryIn (EachBound IsAffine) (block_of body.now) }
    requires small { EveryIn (EachBound IsSmall) (block_of body.now) }
    ensures threaded { OnOk result (threaded_of building.new ≡ states.closed (states.threaded_all (graph_named (graphs_of graphs.now)) (block_of body.now) (standing_of building.old) (threaded_of building.old)) (back_to begun.header ((begun.variable, stepped_on begun.variable step) ∷ []) ∷ [])) }
    ensures extents { OnOk result (HasSmallContainers building.new) }
    ensures standing { OnOk result (standing_of building.new ≡ definition.state_behind (without_loop_variable (definition.behind_all (block_of body.now) (standing_of building.old)))) }
{
    thread_all(alloc, graphs, building, body)?;
    building.end_loop(alloc, begun, step)
}

/// Adds the states of an `if` and of its `else`.
#[cycle(thread)]
#[tactic(auto, using(crate::proofs::states_lemmas::StandingLemmas::if_behind))]
fn thread_if(
    alloc: Global,
    graphs: &Graphs,
    building: &mut Building,
    line: u32,
    when: &Expr,
    body: &[Statement],
    other: &[Statement],
) -> Result<(), NoMemory>
    requires extents { HasSmallContainers building.old }
    requires condition { EachSubscript IsSmall (expression_of when.now) }
    requires affine { EveryIn (EachBound IsAffine) (block_of body.now) }
    requires small { EveryIn (EachBound IsSmall) (block_of body.now) }
    requires other_affine { EveryIn (EachBound IsAffine) (block_of other.now) }
    requires other_small { EveryIn (EachBound IsSmall) (block_of other.now) }
    ensures threaded { OnOk result (threaded_of building.new ≡ states.threaded (graph_named (graphs_of graphs.now)) (branch line (expression_of when.now) (block_of body.now) (block_of other.now)) (standing_of building.old) (threaded_of building.old)) }
    ensures extents { OnOk result (HasSmallContainers building.new) }
    ensures standing { OnOk result (standing_of building.new ≡ definition.behind (branch line (expression_of when.now) (block_of body.now) (block_of other.now)) (standing_of building.old)) }
{
    building.branch_to(alloc, line, when, body)?;
    thread_all(alloc, graphs, building, body)?;
    let join = building.else_to(alloc, other)?;
    thread_all(alloc, graphs, building, other)?;
    building.close_to(alloc, join)
}

/// Adds the states of several statements.
#[cycle(thread)]
pub fn thread_all(
    alloc: Global,
    graphs: &Graphs,
    building: &mut Building,
    body: &[Statement],
) -> Result<(), NoMemory>
    requires extents { HasSmallContainers building.old }
    requires affine { EveryIn (EachBound IsAffine) (block_of body.now) }
    requires small { EveryIn (EachBound IsSmall) (block_of body.now) }
    ensures threaded { OnOk result (threaded_of building.new ≡ states.threaded_all (graph_named (graphs_of graphs.now)) (block_of body.now) (standing_of building.old) (threaded_of building.old)) }
    ensures extents { OnOk result (HasSmallContainers building.new) }
    ensures standing { OnOk result (standing_of building.new ≡ definition.behind_all (block_of body.now) (standing_of building.old)) }
{
    for statement in body {
        thread(alloc, graphs, building, statement)?;
    }
    Ok(())
}

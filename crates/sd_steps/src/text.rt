//! Steps as lines of a chain file.
ghost use Rattle.std.specs.Prelude.{◌≡◌, ◌++◌, string_bytes, IfOk, OnOk};
ghost use Rattle.sd_graph.specs.TreeFold.{graph_tree};
ghost use Rattle.sd_steps.specs.StepText as definition;

use crate::matched::matches;
use sd_chain::Step;
use sd_graph::Bound;
use sd_list::NoMemory;
use sd_print::push_path;
use std::alloc::Global;

/// Adds sizes, each behind a space.
fn push_sizes(line: &mut String, sizes: &[u64]) -> Result<(), NoMemory>
    ensures { OnOk result (string_bytes line.new ≡ string_bytes line.old ++ definition.sizes_text sizes.now) }
{
    for size in sizes {
        write!(line, " {size}")?;
    }
    Ok(())
}

/// The line of a step, with its newline.
pub fn step_line(alloc: Global, step: &Step) -> Result<String, NoMemory>
    ensures { IfOk result (λ line. string_bytes line ≡ definition.step_line step.now) }
{
    let mut line = String::new(alloc);
    match step {
        Step::MapCollapse { at } => {
            line.push_str("MapCollapse ")?;
            push_path(&mut line, at.steps.as_slice())?;
        }
        Step::MapExpansion { at } => {
            line.push_str("MapExpansion ")?;
            push_path(&mut line, at.steps.as_slice())?;
        }
        Step::MapInterchange { at } => {
            line.push_str("MapInterchange ")?;
            push_path(&mut line, at.steps.as_slice())?;
        }
        Step::MapTiling { at, sizes } => {
            line.push_str("MapTiling ")?;
            push_path(&mut line, at.steps.as_slice())?;
            push_sizes(&mut line, sizes.as_slice())?;
        }
    }
    line.push_str("\n")?;
    Ok(line)
}

/// The lines of all steps that may be done on a graph.
#[tactic(auto, using(crate::proofs::More::more))]
pub fn matches_text(alloc: Global, bound: &Bound) -> Result<String, NoMemory>
    ensures { IfOk result (λ text. string_bytes text ≡ definition.matches_text (graph_tree bound.now.graph)) }
{
    let found = matches(alloc, bound)?;
    let steps = found.as_slice();
    let mut text = String::new(alloc);
    for step in steps {
        let line = step_line(alloc, step)?;
        text.push_str(line.as_str())?;
    }
    Ok(text)
}

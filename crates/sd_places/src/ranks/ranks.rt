//! Which variables of a graph have a rank.
ghost use Rattle.std.specs.Prelude.{◌≡◌, length, IfOk};
ghost use Rattle.std.specs.List.{list_all};
ghost use Rattle.sd_graph.specs.TreeFold.{graph_tree};
ghost use Rattle.sd_places.specs.ranks.Lowered as lowering;
ghost use Rattle.sd_validity.specs.rules.Ranks as definition;

use crate::ranks::naming::{Naming, namings};
use sd_graph::Sdfg;
use sd_list::NoMemory;
use std::alloc::Global;

/// Whether a variable has a rank, by a table.
pub fn is_ranked(table: &[bool], number: u32) -> bool
    ensures { result ≡ definition.is_ranked table.now number }
{
    match table.get(number as usize) {
        Some(is) => *is,
        None => true,
    }
}

/// Whether all of these variables have one.
pub fn are_ranked(table: &[bool], numbers: &[u32]) -> bool
    ensures { result ≡ list_all (definition.is_ranked table.now) numbers.now }
{
    for number in numbers {
        if !is_ranked(table, *number) {
            return false;
        }
    }
    true
}

/// Lowers what a table says of the variable of a naming that names one without a rank by another table.
#[tactic(auto, using(crate::proofs::ranks_lemmas::Lowering::lowered_same, crate::proofs::ranks_lemmas::Lowering::lowered_out, crate::proofs::ranks_lemmas::Lowering::lowered_set))]
fn lower(table: &[bool], naming: &Naming, next: &mut Vec<bool>)
    ensures { next.new.items ≡ lowering.lowered table.now next.old.items naming.now }
{
    if are_ranked(table, naming.named()) {
        return;
    }
    let variable = naming.variable() as usize;
    if variable < next.len() {
        next[variable] = false;
    }
}

/// The table for one rank more.
#[tactic(auto, using(crate::proofs::ranks_lemmas::Lowering::raise_none, crate::proofs::ranks_lemmas::Lowering::raise_more))]
fn raised(alloc: Global, all: &[Naming], table: &[bool]) -> Result<Vec<bool>, NoMemory>
    ensures { IfOk result (λ next. next.items ≡ definition.raised all.now (length table.now) table.now) }
{
    let mut next = vec![in alloc; true; table.len()]?;
    for naming in all {
        lower(table, naming, &mut next);
    }
    Ok(next)
}

/// Which of so many variables have a rank of at most so much.
fn ranked(alloc: Global, all: &[Naming], count: usize, most: usize) -> Result<Vec<bool>, NoMemory>
    ensures { IfOk result (λ table. table.items ≡ definition.ranked all.now count most) }
{
    let mut table = vec![in alloc; false; count]?;
    for round in 0..most {
        table = raised(alloc, all, &table)?;
    }
    Ok(table)
}

/// Which variables of a graph have a rank of at most 7.
pub fn ranks_of(alloc: Global, graph: &Sdfg) -> Result<Vec<bool>, NoMemory>
    ensures { IfOk result (λ table. table.items ≡ definition.ranks_of (graph_tree graph.now)) }
{
    let all = namings(alloc, &graph.states)?;
    let table = ranked(alloc, &all, graph.variables.len(), 7)?;
    Ok(table)
}

//! The counts of lists of parts.
ghost use Rattle.std.specs.Prelude.{◌≡◌, ◌<◌, cond, map, length, slice_index_or, IfOk};
ghost use Rattle.sd_work.specs.Residual.{is_ready};
ghost use Rattle.sd_order.specs.table.Told.{told};
ghost use Rattle.sd_left.specs.declared.left.left.Left.{Left as LeftNow};
ghost use Rattle.sd_left.specs.left.Telling.{moves_told, unfinished_told, pools_told, flags_told, ready_moves};
ghost use Rattle.sd_left.specs.left.Tells.{tells, body_tells};

use crate::left::left::{Body, Left};
use crate::left::tells::{
    is_body_finished, is_finished, moves_of, moves_of_body, one_if, pools_of, pools_of_body,
};
use sd_list::NoMemory;
use sd_order::Order;
use std::alloc::Global;

/// How many moves of each body come next.
pub(crate) fn moves_of_each(alloc: Global, bodies: &[Body]) -> Result<Vec<u64>, NoMemory>
    ensures { IfOk result (λ moves. moves.items ≡ moves_told (map body_tells bodies.now)) }
{
    let mut moves = Vec::new(alloc);
    for body in bodies {
        moves.push(moves_of_body(body))?;
    }
    Ok(moves)
}

/// 1 for each body of which something is left.
pub(crate) fn unfinished_bodies(alloc: Global, bodies: &[Body]) -> Result<Vec<u64>, NoMemory>
    ensures { IfOk result (λ unfinished. unfinished.items ≡ unfinished_told (map body_tells bodies.now)) }
{
    let mut unfinished = Vec::new(alloc);
    for body in bodies {
        unfinished.push(one_if(!is_body_finished(body)))?;
    }
    Ok(unfinished)
}

/// 1 for each item of which something is left.
pub(crate) fn unfinished_parts(alloc: Global, parts: &[Left]) -> Result<Vec<u64>, NoMemory>
    ensures { IfOk result (λ unfinished. unfinished.items ≡ unfinished_told (map tells parts.now)) }
{
    let mut unfinished = Vec::new(alloc);
    for part in parts {
        unfinished.push(one_if(!is_finished(part)))?;
    }
    Ok(unfinished)
}

/// How many open consume scopes are in each body.
pub(crate) fn pools_of_each(alloc: Global, bodies: &[Body]) -> Result<Vec<u64>, NoMemory>
    ensures { IfOk result (λ pools. pools.items ≡ pools_told (map body_tells bodies.now)) }
{
    let mut pools = Vec::new(alloc);
    for body in bodies {
        pools.push(pools_of_body(body))?;
    }
    Ok(pools)
}

/// How many open consume scopes are in each item.
pub(crate) fn pools_of_parts(alloc: Global, parts: &[Left]) -> Result<Vec<u64>, NoMemory>
    ensures { IfOk result (λ pools. pools.items ≡ pools_told (map tells parts.now)) }
{
    let mut pools = Vec::new(alloc);
    for part in parts {
        let here = pools_of(part)?;
        pools.push(here)?;
    }
    Ok(pools)
}

/// How many moves of each item come next: none of one that may not go on.
pub(crate) fn moves_of_parts(
    alloc: Global,
    order: &Order,
    parts: &[Left],
) -> Result<Vec<u64>, NoMemory>
    ensures { IfOk result (λ moves. moves.items ≡ ready_moves (told order.now) (flags_told (map tells parts.now)) 0 (map tells parts.now)) }
{
    let mut moves = Vec::new(alloc);
    for number in 0..parts.len() {
        let here = moves_of_part(order, parts, number)?;
        moves.push(here)?;
    }
    Ok(moves)
}

/// How many moves of an item come next: none where it may not go on.
pub(crate) fn moves_of_part(order: &Order, parts: &[Left], number: usize) -> Result<u64, NoMemory>
    requires there { number < length parts.now }
    ensures { IfOk result (λ moves. (part : LeftNow) → part ≡ slice_index_or parts.now number part → moves ≡ cond (is_ready (told order.now) (flags_told (map tells parts.now)) number) (tells part).moves 0) }
{
    if !is_ready(order, parts, number) {
        return Ok(0);
    }
    moves_of(&parts[number])
}

/// Whether an item may go on: nothing is left of each that is before it.
pub fn is_ready(order: &Order, parts: &[Left], number: usize) -> bool
    ensures { result ≡ is_ready (told order.now) (flags_told (map tells parts.now)) number }
{
    for other in 0..parts.len() {
        if order.is_before(other, number) && !is_finished(&parts[other]) {
            return false;
        }
    }
    true
}

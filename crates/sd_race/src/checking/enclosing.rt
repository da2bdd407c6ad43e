//! The box that encloses those of several accesses.
ghost use Rattle.std.specs.Prelude.{◌≡◌, ◌↔◌, IfOk, IfSome, IsTrue};
ghost use Rattle.std.specs.List.{All};
ghost use Rattle.sd_race.specs.checking.Clear.{bounds_in, Encloses, EnclosesBounds, IsEnclosedAt};

use crate::checking::placed::Placed;
use sd_list::NoMemory;
use sd_range::Affine;
use sd_subset::Bounds;
use std::alloc::Global;

/// The bounds of one dimension that are the widest so far.
#[derive(Clone, Copy)]
pub(crate) struct Widest<'a> {
    low: &'a Affine,
    high: &'a Affine,
}

/// Whether two expressions have the same terms.
fn have_same_terms(a: &Affine, b: &Affine) -> bool
    ensures { (IsTrue result) ↔ (a.now.terms ≡ b.now.terms) }
{
    a.terms.as_slice() == b.terms.as_slice()
}

/// Whether both bounds have the terms of others.
fn is_level(widest: Widest<'_>, bounds: &Bounds) -> bool
    ensures low { IsTrue result → bounds.now.low.terms ≡ widest.entry.low.now.terms }
    ensures high { IsTrue result → bounds.now.high.terms ≡ widest.entry.high.now.terms }
{
    if !have_same_terms(&bounds.low, widest.low) {
        return false;
    }
    have_same_terms(&bounds.high, widest.high)
}

/// The lesser of two lower bounds, and the greater of two upper ones.
fn wider<'a>(widest: Widest<'a>, bounds: &'a Bounds) -> Widest<'a>
    requires low { bounds.now.low.terms ≡ widest.low.now.terms }
    requires high { bounds.now.high.terms ≡ widest.high.now.terms }
    ensures widest { EnclosesBounds (bounds_in result) (bounds_in widest.entry) }
    ensures bounds { EnclosesBounds (bounds_in result) bounds.now }
{
    let low = if bounds.low.constant < widest.low.constant {
        &bounds.low
    } else {
        widest.low
    };
    let high = if widest.high.constant < bounds.high.constant {
        &bounds.high
    } else {
        widest.high
    };
    Widest { low, high }
}

/// The widest bounds of a dimension; `None` where not each access has it with the same terms.
fn widest_in<'a>(items: &[Placed<'a>], dimension: usize) -> Option<Widest<'a>>
    ensures { IfSome result (λ widest. All (IsEnclosedAt dimension (bounds_in widest)) items.now) }
{
    let mut widest = None;
    for one in items {
        let bounds = one.access.bounds().get(dimension)?;
        widest = match widest {
            None => Some(Widest {
                low: &bounds.low,
                high: &bounds.high,
            }),
            Some(known) if is_level(known, bounds) => Some(wider(known, bounds)),
            Some(_) => return None,
        };
    }
    widest
}

/// A box that encloses those of all accesses.
pub(crate) fn enclosing(
    alloc: Global,
    items: &[Placed<'_>],
) -> Result<Option<Vec<Bounds>>, NoMemory>
    ensures { IfOk result (λ found. IfSome found (λ whole. All (λ one. Encloses whole.items one.access.now.box) items.now)) }
{
    let Some(first) = items.first() else {
        return Ok(None);
    };
    let mut all = Vec::new(alloc);
    for dimension in 0..first.access.bounds().len() {
        let Some(widest) = widest_in(items, dimension) else {
            return Ok(None);
        };
        all.push(Bounds {
            low: widest.low.copy_of(alloc)?,
            high: widest.high.copy_of(alloc)?,
        })?;
    }
    Ok(Some(all))
}

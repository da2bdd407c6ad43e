//! Expressions of many variables, and copies of values, ranges and subsets.
ghost use Rattle.std.specs.Prelude.{◌≡◌, pos, [], ◌∷◌, IfOk};
ghost use Rattle.sd_range.specs.Terms.{IsNormal};

use crate::sure::sure;
use sd_list::{NoMemory, Sequence};
use sd_range::{Affine, Dim, Env, Range, Subset, Terms};
use std::alloc::Global;
use std::process::Abort;

/// The expression of this constant and these terms.
fn built(alloc: Global, constant: i128, terms: &[(u32, i128)]) -> Result<Affine, NoMemory>
    requires { IsNormal terms.now }
    ensures { IfOk result (λ a. (a.constant ≡ constant) × (a.terms ≡ terms.now)) }
{
    let mut all = Terms::new(alloc);
    for (variable, coefficient) in terms {
        all.push(*variable, *coefficient)?;
    }
    Ok(Affine {
        constant,
        terms: all,
    })
}

/// 2^41 and five variables, the even ones from 0 on.
fn long(alloc: Global) -> Result<Affine, NoMemory>
    ensures constant { IfOk result (λ a. a.constant ≡ pos 2199023255552) }
    ensures terms { IfOk result (λ a. a.terms ≡ (0, pos 1) ∷ (2, pos 3) ∷ (4, pos 5) ∷ (6, pos 7) ∷ (8, pos 9) ∷ []) }
{
    let even = [(0, 1), (2, 3), (4, 5), (6, 7), (8, 9)];
    built(alloc, 2_199_023_255_552, &even)
}

/// 2^41 and the even variables, with 9*(v1 - 1) in the place of 9*v8.
fn substituted(alloc: Global) -> Result<Affine, NoMemory> {
    let by = built(alloc, -1, &[(1, 1)])?;
    long(alloc)?.substituted(alloc, 8, &by)
}

#[test]
fn a_variable_is_substituted_among_many(rt: HostRuntime) {
    let sum = sure(&rt, substituted(rt.alloc()));
    assert!(rt; sum.constant == 2_199_023_255_543);
    let terms = [(0, 1), (1, 9), (2, 3), (4, 5), (6, 7)];
    assert!(rt; sum.terms.as_slice() == terms.as_slice());
}

#[test]
fn any_number_of_values_is_copied(rt: HostRuntime) {
    let values = Sequence::new(rt.alloc());
    let mut original = Env { values };
    for count in 0..13_u32 {
        let copy = sure(&rt, original.copy_of(rt.alloc()));
        assert!(rt; copy.same(&original), "{count} values");
        let value = i128::from(count).saturating_add(2_199_023_255_552);
        sure(&rt, original.values.push(value));
    }
}

/// A dimension: a range with so many ends, and an index where these are none.
fn dimension(alloc: Global, ends: u32) -> Result<Dim, NoMemory> {
    let begin = long(alloc)?;
    if ends == 0 {
        return Ok(Dim::Index(begin));
    }
    let mut all = Sequence::new(alloc);
    for _ in 0..ends {
        all.push(long(alloc)?)?;
    }
    Ok(Dim::Span(Range {
        begin,
        ends: all,
        step: 2_199_023_255_552,
    }))
}

/// So many dimensions, each with so many ends.
fn subset(rt: &impl Abort, alloc: Global, dimensions: u32, ends: u32) -> Subset {
    let mut dims = Sequence::new(alloc);
    for _ in 0..dimensions {
        sure(rt, dims.push(sure(rt, dimension(alloc, ends))));
    }
    Subset { dims }
}

/// Whether a copy of so many dimensions with so many ends is the same.
fn is_copied(rt: &impl Abort, alloc: Global, dimensions: u32, ends: u32) -> bool {
    let original = subset(rt, alloc, dimensions, ends);
    sure(rt, original.copy_of(alloc)).same(&original)
}

#[test]
fn no_to_four_dimensions_of_one_to_four_ends_are_copied(rt: HostRuntime) {
    let alloc = rt.alloc();
    for dimensions in 0..5 {
        for ends in 0..5 {
            assert!(rt;
                is_copied(&rt, alloc, dimensions, ends),
                "{dimensions} of {ends}"
            );
        }
    }
    assert!(rt; !subset(&rt, alloc, 4, 0).same(&subset(&rt, alloc, 4, 4)));
    assert!(rt; !subset(&rt, alloc, 1, 3).same(&subset(&rt, alloc, 1, 4)));
}

ghost use Rattle.std.specs.Prelude.{◌≡◌, ◌<◌, ◌+◌, ◌++◌, [], ◌∷◌, ◌≤◌, length, IfOk, IsOk, OnOk, MatchOption, FitsSigned};
ghost use Rattle.std.specs.Int.{w128};
ghost use Rattle.std.specs.List.{All};
ghost use Rattle.sd_range.specs.Terms.{IsNormal};
ghost use Rattle.sd_range.specs.Arithmetic.{put_before, combined, combination, affine_sum, affine_difference, affine_product, others_of, without, substituted, IsRepresentable};
ghost use Rattle.sd_range.specs.Merge.{IsNext};

use crate::affine::{Affine, with_term};
use crate::terms::Terms;
use sd_list::NoMemory;
use std::alloc::Global;

/// The first term of a combination, and the terms that are left of both sides.
#[derive(Clone, Copy)]
struct Next<'a> {
    variable: u32,
    coefficient: i128,
    left: &'a [(u32, i128)],
    right: &'a [(u32, i128)],
}

/// The term of the least variable; its coefficient may be zero.
fn next_of<'a>(left: &'a [(u32, i128)], factor: i128, right: &'a [(u32, i128)]) -> Option<Next<'a>>
    requires left { IsNormal left.now }
    requires right { IsNormal right.now }
    ensures { MatchOption result (combined left.now factor right.now ≡ []) (IsNext left.now factor right.now) }
{
    let Some((first, others)) = left.split_first() else {
        let (other, others) = right.split_first()?;
        return Some(Next {
            variable: other.0,
            coefficient: with_term(0, factor, other.1),
            left,
            right: others,
        });
    };
    match right.split_first() {
        Some((other, rest)) if other.0 < first.0 => Some(Next {
            variable: other.0,
            coefficient: with_term(0, factor, other.1),
            left,
            right: rest,
        }),
        Some((other, rest)) if other.0 == first.0 => Some(Next {
            variable: first.0,
            coefficient: with_term(first.1, factor, other.1),
            left: others,
            right: rest,
        }),
        _ => Some(Next {
            variable: first.0,
            coefficient: first.1,
            left: others,
            right,
        }),
    }
}

/// Adds a term of a higher variable, unless its coefficient is zero.
fn put(terms: &mut Terms, variable: u32, coefficient: i128) -> Result<(), NoMemory>
    requires { IsNormal (terms.old ++ put_before variable coefficient []) }
    ensures ok { OnOk result (terms.new ≡ terms.old ++ put_before variable coefficient []) }
    ensures few { length (terms.old ++ put_before variable coefficient []) ≤ 4 → IsOk result }
{
    if coefficient != 0 {
        terms.push(variable, coefficient)?;
    }
    Ok(())
}

/// The terms of the left side, and those of the right so many times.
fn combined_terms(
    alloc: Global,
    left: &[(u32, i128)],
    factor: i128,
    right: &[(u32, i128)],
) -> Result<Terms, NoMemory>
    requires left { IsNormal left.now }
    requires right { IsNormal right.now }
    requires fits { All (λ term. FitsSigned w128 term.1) (combined left.now factor right.now) }
    ensures ok { IfOk result (λ terms. terms ≡ combined left.now factor right.now) }
    ensures few { length (combined left.now factor right.now) ≤ 4 → IsOk result }
{
    let mut terms = Terms::new(alloc);
    let mut left_rest = left;
    let mut right_rest = right;
    while let Some(next) = next_of(left_rest, factor, right_rest) {
        put(&mut terms, next.variable, next.coefficient)?;
        left_rest = next.left;
        right_rest = next.right;
    }
    Ok(terms)
}

/// The expression, and the other so many times.
fn combination_of(alloc: Global, a: &Affine, factor: i128, b: &Affine) -> Result<Affine, NoMemory>
    requires { IsRepresentable (combination a.now factor b.now) }
    ensures ok { IfOk result (λ all. all ≡ combination a.now factor b.now) }
    ensures few { length (combination a.now factor b.now).terms ≤ 4 → IsOk result }
{
    Ok(Affine {
        constant: with_term(a.constant, factor, b.constant),
        terms: combined_terms(alloc, a.terms.as_slice(), factor, b.terms.as_slice())?,
    })
}

/// Adds a term of a higher variable, unless it is a term of this one.
fn put_other(terms: &mut Terms, term: (u32, i128), variable: u32) -> Result<(), NoMemory>
    requires { IsNormal (terms.old ++ others_of variable (term ∷ [])) }
    ensures ok { OnOk result (terms.new ≡ terms.old ++ others_of variable (term ∷ [])) }
    ensures few { length (terms.old ++ others_of variable (term ∷ [])) ≤ 4 → IsOk result }
{
    if term.0 != variable {
        terms.push(term.0, term.1)?;
    }
    Ok(())
}

/// The expression less its term of the variable.
fn less_variable(alloc: Global, a: &Affine, variable: u32) -> Result<Affine, NoMemory>
    ensures ok { IfOk result (λ rest. rest ≡ without variable a.now) }
    ensures few { length (without variable a.now).terms ≤ 4 → IsOk result }
{
    let mut terms = Terms::new(alloc);
    for term in a.terms.as_slice() {
        put_other(&mut terms, *term, variable)?;
    }
    Ok(Affine {
        constant: a.constant,
        terms,
    })
}

/// Sums, differences, products and substitution. Each takes time linear in the terms of both, and
/// memory only where it makes more than four terms.
impl Affine {
    /// The sum of both.
    pub fn plus(&self, alloc: Global, other: &Affine) -> Result<Affine, NoMemory>
        requires { IsRepresentable (affine_sum self.now other.now) }
        ensures ok { IfOk result (λ sum. sum ≡ affine_sum self.now other.now) }
        ensures few { length (affine_sum self.now other.now).terms ≤ 4 → IsOk result }
    {
        combination_of(alloc, self, 1, other)
    }

    /// This one less the other.
    pub fn minus(&self, alloc: Global, other: &Affine) -> Result<Affine, NoMemory>
        requires { IsRepresentable (affine_difference self.now other.now) }
        ensures ok { IfOk result (λ difference. difference ≡ affine_difference self.now other.now) }
        ensures few { length (affine_difference self.now other.now).terms ≤ 4 → IsOk result }
    {
        combination_of(alloc, self, -1, other)
    }

    /// The product with a number.
    pub fn times(&self, alloc: Global, factor: i128) -> Result<Affine, NoMemory>
        requires { IsRepresentable (affine_product factor self.now) }
        ensures ok { IfOk result (λ product. product ≡ affine_product factor self.now) }
        ensures few { length (affine_product factor self.now).terms ≤ 4 → IsOk result }
    {
        combination_of(alloc, &Affine::constant(alloc, 0), factor, self)
    }

    /// The expression with another in the place of a variable.
    pub fn substituted(&self, alloc: Global, variable: u32, by: &Affine) -> Result<Affine, NoMemory>
        requires { IsRepresentable (substituted variable by.now self.now) }
        ensures ok { IfOk result (λ a. a ≡ substituted variable by.now self.now) }
        ensures few { length (without variable self.now).terms ≤ 4 → length (substituted variable by.now self.now).terms ≤ 4 → IsOk result }
    {
        let others = less_variable(alloc, self, variable)?;
        combination_of(alloc, &others, self.terms.coefficient(variable), by)
    }
}

ghost use Rattle.std.specs.Prelude.{◌≡◌, ◌≤◌, ◌↔◌, pos, [], ◌∷◌, length, IfOk, IsOk, IsTrue, ◌+ℤ◌, ◌*ℤ◌};
ghost use Rattle.std.specs.Int.{int_wrap, w128};

use crate::env::Env;
use crate::terms::Terms;
use sd_list::NoMemory;
use std::alloc::Global;

/// A constant plus coefficients times variables.
#[derive(Drop)]
pub struct Affine {
    pub constant: i128,
    pub terms: Terms,
}

/// One more term. The sum of all terms fits 128 bits, so wrapping on the way changes nothing.
pub(crate) fn with_term(sum: i128, coefficient: i128, value: i128) -> i128
    ensures { result ≡ int_wrap w128 (sum +ℤ (coefficient *ℤ value)) }
{
    sum.wrapping_add(coefficient.wrapping_mul(value))
}

impl Affine {
    ghost use Rattle.sd_range.specs.Affine.{affine_value, IsEvaluable};

    /// A number alone. Takes no memory: the allocator is for terms to come.
    pub fn constant(alloc: Global, value: i128) -> Affine
        ensures constant { result.constant ≡ value }
        ensures terms { result.terms ≡ [] }
    {
        Affine {
            constant: value,
            terms: Terms::new(alloc),
        }
    }

    /// A variable alone.
    pub fn variable(alloc: Global, variable: u32) -> Result<Affine, NoMemory>
        ensures constant { IfOk result (λ a. a.constant ≡ pos 0) }
        ensures terms { IfOk result (λ a. a.terms ≡ (variable, pos 1) ∷ []) }
        ensures succeeds { IsOk result }
    {
        let mut terms = Terms::new(alloc);
        terms.push(variable, 1)?;
        Ok(Affine { constant: 0, terms })
    }

    /// The same expression once more.
    pub fn copy_of(&self, alloc: Global) -> Result<Affine, NoMemory>
        ensures same { IfOk result (λ copy. copy ≡ self.now) }
        ensures few { length self.now.terms ≤ 4 → IsOk result }
    {
        Ok(Affine {
            constant: self.constant,
            terms: self.terms.copy_of(alloc)?,
        })
    }

    /// Whether both have the same constant and the same terms: then, and only then, they have
    /// the same value wherever the variables have values. Takes no memory.
    pub fn same(&self, other: &Affine) -> bool
        ensures { IsTrue result ↔ (self.now ≡ other.now) }
    {
        self.constant == other.constant && self.terms.as_slice() == other.terms.as_slice()
    }

    /// The value where the variables have these values. Takes no memory.
    pub fn value(&self, env: &Env) -> i128
        requires { IsEvaluable env.now.values self.now }
        ensures { result ≡ affine_value env.now.values self.now }
    {
        let values = env.values.as_slice();
        let mut sum = self.constant;
        for (variable, coefficient) in self.terms.as_slice() {
            sum = with_term(sum, *coefficient, values[*variable as usize]);
        }
        sum
    }
}

ghost use Rattle.std.specs.Prelude.{◌≡◌, ◌<◌, ◌≤◌, [], ◌∷◌, ◌++◌, length, IfOk, IsOk, OnOk, OnErr};
ghost use Rattle.sd_range.specs.Terms.{IsNormal, coefficient_of};

use sd_list::NoMemory;
use smallvec::SmallVec;
use std::alloc::Global;
use std::marker::Model;

/// How many terms need no allocation.
const INLINE: usize = 4;

/// The terms of an affine expression: variables with their coefficients.
///
/// The variables rise and no coefficient is zero, so equal expressions have equal terms. Up
/// to four terms need no allocation.
#[derive(Drop)]
pub struct Terms {
    items: SmallVec<(u32, i128), INLINE>,
}

impl Model for Terms {
    ghost use Rattle.std.specs.Prelude.{◌≤◌, List, ℕ, ℤ};
    ghost use Rattle.sd_range.specs.Terms.{IsNormal};

    ghost Value = { List (ℕ × ℤ) };

    ghost view = { λ t. t.items.items };

    ghost invariant = { λ t. IsNormal t.items.items × (4 ≤ t.items.capacity) };
}

impl Terms {
    /// No terms.
    pub fn new(alloc: Global) -> Terms
        ensures { result ≡ [] }
    {
        Terms {
            items: SmallVec::new(alloc),
        }
    }

    /// Adds a term of a higher variable.
    pub fn push(&mut self, variable: u32, coefficient: i128) -> Result<(), NoMemory>
        requires { IsNormal (self.old ++ (variable, coefficient) ∷ []) }
        ensures ok { OnOk result (self.new ≡ self.old ++ (variable, coefficient) ∷ []) }
        ensures err { OnErr result (self.new ≡ self.old) }
        ensures few { length self.old < 4 → IsOk result }
    {
        self.items.push((variable, coefficient))?;
        Ok(())
    }

    /// The same terms once more.
    pub fn copy_of(&self, alloc: Global) -> Result<Terms, NoMemory>
        ensures same { IfOk result (λ copy. copy ≡ self.now) }
        ensures few { length self.now ≤ 4 → IsOk result }
    {
        let mut items = SmallVec::new(alloc);
        items.extend_from_slice(self.items.as_slice())?;
        Ok(Terms { items })
    }

    /// The coefficient of a variable, 0 where no term has it. Takes no memory.
    pub fn coefficient(&self, variable: u32) -> i128
        ensures { result ≡ coefficient_of self.now variable }
    {
        for (other, coefficient) in self.items.as_slice() {
            if *other == variable {
                return *coefficient;
            }
        }
        0
    }

    /// Each variable with its coefficient, by rising variables.
    pub fn as_slice(&self) -> &[(u32, i128)]
        ensures terms { result.now ≡ self.now }
        ensures normal { IsNormal result.now }
    {
        self.items.as_slice()
    }
}

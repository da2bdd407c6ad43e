ghost use Rattle.std.specs.Prelude.{◌≡◌, ◌↔◌, ◌<◌, length, slice_set, IfOk, IsTrue};

use sd_list::{NoMemory, Sequence};
use std::alloc::Global;

/// The values of the variables, by their numbers.
#[derive(Drop)]
pub struct Env {
    pub values: Sequence<i128>,
}

impl Env {
    /// The same values once more.
    pub fn copy_of(&self, alloc: Global) -> Result<Env, NoMemory>
        ensures { IfOk result (λ copy. copy ≡ self.now) }
    {
        let values = self.values.as_slice().to_vec(alloc)?;
        Ok(Env {
            values: Sequence::from(values),
        })
    }

    /// Whether both give each variable the same value, and have equally many. Takes no memory.
    pub fn same(&self, other: &Env) -> bool
        ensures { IsTrue result ↔ (self.now ≡ other.now) }
    {
        self.values.as_slice() == other.values.as_slice()
    }

    /// Gives a variable another value. Takes no memory.
    pub fn set(&mut self, variable: u32, value: i128)
        requires { variable < length self.old.values }
        ensures { self.new.values ≡ slice_set self.old.values variable value }
    {
        self.values.set(variable as usize, value);
    }
}

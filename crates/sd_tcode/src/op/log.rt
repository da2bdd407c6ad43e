ghost use Rattle.std.specs.Prelude.{◌≡◌, ◌<◌, ◌++◌, ◌∷◌, [], length, IfOk};

use sd_list::NoMemory;
use sd_tasklet::Effect;
use std::alloc::Global;
use std::marker::Model;

/// The effects of a run, in slots that were there before it. Nothing here takes memory.
#[derive(Drop)]
pub struct Log {
    slots: Vec<Effect>,
    count: usize,
}

impl Model for Log {
    ghost use Rattle.std.specs.Prelude.{List, ℕ, ◌≤◌, length, take};
    ghost use Rattle.sd_tasklet.specs.declared.tasklet.effect.Effect.{Effect};

    ghost Value = { List Effect × ℕ };

    ghost view = { λ log. (take log.count log.slots.items, length log.slots.items) };

    ghost invariant = { λ log. log.count ≤ length log.slots.items };
}

impl Log {
    /// Room for so many effects, and none of them yet.
    pub fn reserve(alloc: Global, slots: usize) -> Result<Log, NoMemory>
        ensures kept { IfOk result (λ log. log.0 ≡ []) }
        ensures slots { IfOk result (λ log. log.1 ≡ slots) }
    {
        let nothing = Effect {
            connector: 0,
            at: [0; 4],
            value: 0,
        };
        Ok(Log {
            slots: vec![in alloc; nothing; slots]?,
            count: 0,
        })
    }

    /// One more effect.
    #[inline(always)]
    pub fn keep(&mut self, effect: Effect)
        requires { length self.old.0 < self.old.1 }
        ensures kept { self.new.0 ≡ self.old.0 ++ effect ∷ [] }
        ensures slots { self.new.1 ≡ self.old.1 }
    {
        self.slots[self.count] = effect;
        self.count += 1;
    }

    /// No effect.
    pub fn clear(&mut self)
        ensures kept { self.new.0 ≡ [] }
        ensures slots { self.new.1 ≡ self.old.1 }
    {
        self.count = 0;
    }

    /// The effects in their order.
    pub fn as_slice(&self) -> &[Effect]
        ensures { result.now ≡ self.now.0 }
    {
        &self.slots[..self.count]
    }

    /// How many effects there is room for.
    pub fn slots(&self) -> usize
        ensures { result ≡ self.now.1 }
    {
        self.slots.len()
    }
}

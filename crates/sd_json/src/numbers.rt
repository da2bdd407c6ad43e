ghost use Rattle.std.specs.Prelude.{◌≡◌, Some, None, [], ◌∷◌, option_map, OnOk};
ghost use Rattle.sd_json.specs.NestedLists.{joined};

use crate::elements::Elements;
use sd_list::NoMemory;
use std::alloc::Global;
use std::marker::Model;

/// The numbers of a value from left to right, as long as each of its leaves is a whole number.
#[derive(Drop)]
pub(crate) struct Numbers {
    list: Elements,
    whole: bool,
}

impl Model for Numbers {
    ghost use Rattle.std.specs.Prelude.{ℤ, List, Option, Some, None, if◌then◌else◌};

    ghost Value = { Option (List ℤ) };

    ghost view = { λ numbers. if numbers.whole then Some numbers.list else None };
}

impl Numbers {
    /// None yet.
    pub(crate) fn new(alloc: Global) -> Numbers
        ensures { result ≡ Some [] }
    {
        Numbers {
            list: Elements::new(alloc),
            whole: true,
        }
    }

    /// Those of a value that nobody asks for: as if a leaf were no number, so that none are kept.
    pub(crate) fn unasked(alloc: Global) -> Numbers
        ensures { result ≡ None }
    {
        Numbers {
            list: Elements::new(alloc),
            whole: false,
        }
    }

    /// One leaf more, which is a whole number.
    #[inline(always)]
    pub(crate) fn push(&mut self, number: i64) -> Result<(), NoMemory>
        ensures { OnOk result (self.new ≡ joined self.old (Some (number ∷ []))) }
    {
        if self.whole && self.list.push_small(number) {
            return Ok(());
        }
        self.add(Some(number))
    }

    /// One leaf more, which is a whole number or none.
    #[inline(never)]
    pub(crate) fn add(&mut self, leaf: Option<i64>) -> Result<(), NoMemory>
        ensures { OnOk result (self.new ≡ joined self.old (option_map (λ number. number ∷ []) leaf)) }
    {
        let Some(number) = leaf else {
            self.whole = false;
            return Ok(());
        };
        if !self.whole {
            return Ok(());
        }
        self.list.push(number)
    }

    /// The numbers as a list.
    pub(crate) fn into_list(self) -> Option<Elements>
        ensures { result ≡ self }
    {
        let Numbers { list, whole } = self;
        if whole { Some(list) } else { None }
    }
}

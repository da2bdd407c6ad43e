ghost use Rattle.std.specs.Prelude.{◌≡◌, [], ◌∷◌, ◌++◌, slice_get, IfOk, OnOk};
ghost use Rattle.std.specs.Bool.{MatchBool};
ghost use Rattle.sd_json.specs.HeldElements.{elements_held};

use sd_list::{NoMemory, Sequence};
use std::alloc::Global;
use std::marker::Model;

/// Numbers of 32 bits each, as long as all of them fit, else of 64.
#[derive(Drop)]
pub(crate) enum Held {
    Narrow(Vec<i32>),
    Wide(Vec<i64>),
}

/// A list of elements that takes half the room where all of them are small.
#[derive(Drop)]
pub struct Elements {
    held: Held,
}

impl Model for Elements {
    ghost use Rattle.std.specs.Prelude.{ℤ, List};
    ghost use Rattle.sd_json.specs.HeldElements.{elements_held};

    ghost Value = { List ℤ };

    ghost view = { λ elements. elements_held elements.held };
}

/// One number more. There is mostly room for it.
#[inline(always)]
fn add<T: Drop>(list: &mut Vec<T>, number: T) -> Result<(), NoMemory>
    ensures { OnOk result (list.new.items ≡ list.old.items ++ number ∷ []) }
{
    if list.len() < list.capacity() {
        list.push_reserved(number);
    } else {
        list.push(number)?;
    }
    Ok(())
}

/// The same numbers in 64 bits.
fn widened(alloc: Global, small: &[i32]) -> Result<Vec<i64>, NoMemory>
    ensures { IfOk result (λ wide. wide.items ≡ small.now) }
{
    let mut wide = Vec::with_capacity(alloc, small.len())?;
    for number in small {
        wide.push_reserved(i64::from(*number));
    }
    Ok(wide)
}

/// The same numbers in 64 bits, and one more.
#[cold]
#[inline(never)]
fn widened_with(small: &Vec<i32>, number: i64) -> Result<Held, NoMemory>
    ensures { IfOk result (λ held. elements_held held ≡ small.now.items ++ number ∷ []) }
{
    let mut wide = widened(*small.allocator(), small.as_slice())?;
    wide.push(number)?;
    Ok(Held::Wide(wide))
}

impl Elements {
    /// None yet.
    pub(crate) fn new(alloc: Global) -> Elements
        ensures { result ≡ [] }
    {
        Elements {
            held: Held::Narrow(Vec::new(alloc)),
        }
    }

    /// Adds an element where it is small and there is room for it.
    #[inline(always)]
    pub(crate) fn push_small(&mut self, number: i64) -> bool
        ensures { MatchBool result (self.new ≡ self.old ++ number ∷ []) (self.new ≡ self.old) }
    {
        let Held::Narrow(small) = &mut self.held else {
            return false;
        };
        let Ok(number) = i32::try_from(number) else {
            return false;
        };
        if small.len() >= small.capacity() {
            return false;
        }
        small.push_reserved(number);
        true
    }

    /// One element more.
    pub(crate) fn push(&mut self, number: i64) -> Result<(), NoMemory>
        ensures { OnOk result (self.new ≡ self.old ++ number ∷ []) }
    {
        match &mut self.held {
            Held::Wide(wide) => add(wide, number)?,
            Held::Narrow(small) => match i32::try_from(number) {
                Ok(number) => add(small, number)?,
                Err(_) => self.held = widened_with(small, number)?,
            },
        }
        Ok(())
    }

    /// The first element, where there is one.
    pub(crate) fn first(&self) -> Option<i64>
        ensures { result ≡ slice_get self.now 0 }
    {
        match &self.held {
            Held::Wide(wide) => wide.as_slice().first().copied(),
            Held::Narrow(small) => match small.as_slice().first() {
                Some(number) => Some(i64::from(*number)),
                None => None,
            },
        }
    }

    /// The elements of 64 bits each.
    pub(crate) fn into_list(self, alloc: Global) -> Result<Sequence<i64>, NoMemory>
        ensures { IfOk result (λ list. list ≡ self) }
    {
        match self.held {
            Held::Wide(wide) => Ok(Sequence::from(wide)),
            Held::Narrow(small) => Ok(Sequence::from(widened(alloc, small.as_slice())?)),
        }
    }
}

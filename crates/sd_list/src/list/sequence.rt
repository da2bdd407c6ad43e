ghost use Rattle.std.specs.Prelude.{◌≡◌, ◌↔◌, ◌<◌, ◌++◌, ◌∷◌, [], length, slice_set, IsTrue, OnOk, OnErr};
ghost use Rattle.std.specs.Borrow.{sem};

use crate::list::memory::NoMemory;
use std::alloc::Global;
use std::marker::Model;

/// A list that contracts compare by its items alone.
///
/// It may be made from a `Vec` and given back as one; neither takes memory.
#[derive(Drop)]
pub struct Sequence<T> {
    items: Vec<T>,
}

impl<T> Model for Sequence<T> {
    ghost use Rattle.std.specs.Prelude.{List};

    ghost Value = { List T };

    ghost view = { λ s. s.items.items };
}

impl<T> Sequence<T> {
    ghost use Rattle.sd_list.specs.list.Lending.{LendsItems};

    /// No items. Takes no memory: the allocator is for items to come.
    pub fn new(alloc: Global) -> Sequence<T>
        ensures { result ≡ [] }
    {
        Sequence {
            items: Vec::new(alloc),
        }
    }

    pub fn len(&self) -> usize
        ensures { result ≡ length self.now }
    {
        self.items.len()
    }

    pub fn is_empty(&self) -> bool
        ensures { IsTrue result ↔ (self.now ≡ []) }
    {
        self.items.is_empty()
    }

    pub fn as_slice(&self) -> &[T]
        ensures { result.now ≡ self.now }
    {
        &self.items
    }

    /// The items, to be changed in their places.
    pub fn as_mut_slice(&mut self) -> &mut [T]
        ensures* writes_back { sem 𝓛 (LendsItems T.row self.entry result) }
        ensures items { result.now ≡ self.old }
    {
        self.items.as_mut_slice()
    }

    /// Adds a value at the end. Where memory is wanting it is let go.
    pub fn push(&mut self, value: T) -> Result<(), NoMemory>
    where
        T: Drop,
        ensures ok { OnOk result (self.new ≡ self.old ++ value ∷ []) }
        ensures err { OnErr result (self.new ≡ self.old) }
    {
        self.items.push(value)?;
        Ok(())
    }

    /// Puts a value in the place of the item at this index.
    pub fn set(&mut self, index: usize, value: T)
    where
        T: Drop,
        requires { index < length self.old }
        ensures { self.new ≡ slice_set self.old index value }
    {
        self.items[index] = value;
    }

    /// The items as a `Vec` again.
    pub fn into_vec(self) -> Vec<T>
        ensures { result.items ≡ self }
    {
        let Sequence { items } = self;
        items
    }
}

impl<T> From<Vec<T>> for Sequence<T> {
    ghost use Rattle.std.specs.Prelude.{◌≡◌};

    ghost from_gives = { λ vec sequence. sequence ≡ vec.items };

    fn from(items: Vec<T>) -> Sequence<T> {
        Sequence { items }
    }
}

//! Tables of names.
ghost use Rattle.std.specs.Prelude.{◌≡◌, IfOk, OnOk, [], length, take};
ghost use Rattle.std.specs.Option.{option_copied};
ghost use Rattle.sd_names.specs.Names.{listed, place_of, put};

use indexmap::IndexMap;
use sd_list::NoMemory;
use std::alloc::Global;
use std::marker::Model;

/// There is no room for more names: the place of each is a number of 32 bits.
const MOST: usize = 4_294_967_295;

/// Things under names, each name once, in the order in which they came.
#[derive(Drop)]
pub struct Table<V> {
    entries: IndexMap<String, V>,
}

impl<V> Model for Table<V> {
    ghost use Rattle.std.specs.Prelude.{List, ℕ, length, ◌<◌, ◌^◌};
    ghost use Rattle.sd_names.specs.Names.{named_entries};

    ghost Value = { List (List ℕ × V) };

    ghost view = { λ t. named_entries t.entries.entries };

    ghost invariant = { λ t. length t.entries.entries < 2 ^ 32 };
}

impl<V> Table<V> {
    /// No names. Takes no memory: the allocator is for names to come.
    pub fn new(alloc: Global) -> Table<V>
        ensures { result ≡ [] }
    {
        Table {
            entries: IndexMap::new(alloc),
        }
    }

    /// How many names there are.
    pub fn len(&self) -> usize
        ensures { result ≡ length self.now }
    {
        self.entries.len()
    }

    /// What is under the name.
    #[tactic(auto, using(crate::proofs::TableLemmas::listed_named))]
    pub fn find(&self, name: &str) -> Option<&V>
        ensures { option_copied result ≡ listed self.now name.now }
    {
        self.entries.get(name)
    }

    /// The place of the name, the number of names where it is not there.
    #[tactic(auto, using(crate::proofs::TableLemmas::place_named, crate::proofs::TableLemmas::length_named))]
    pub fn place(&self, name: &str) -> u32
        ensures { result ≡ place_of self.now name.now }
    {
        match self.entries.get_index_of(name) {
            Some(place) => place as u32,
            None => self.entries.len() as u32,
        }
    }

    /// Puts something under a name, in the place of what was there, else behind all.
    #[tactic(auto, using(crate::proofs::TableLemmas::put_named))]
    pub fn put(&mut self, alloc: Global, name: &str, value: V) -> Result<(), NoMemory>
    where
        V: Drop,
        ensures { OnOk result (self.new ≡ put self.old name.now value) }
    {
        if self.entries.len() >= MOST {
            return Err(NoMemory);
        }
        self.entries.insert(String::from_str(alloc, name)?, value)?;
        Ok(())
    }

    /// Keeps the first so many names.
    #[tactic(auto, using(crate::proofs::TableLemmas::take_named))]
    pub fn truncate(&mut self, count: usize)
    where
        V: Drop,
        ensures { self.new ≡ take count self.old }
    {
        self.entries.truncate(count);
    }
}

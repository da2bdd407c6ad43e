ghost use Rattle.std.specs.Prelude.{◌≡◌, OnOk, []};
ghost use Rattle.std.specs.Option.{option_copied};
ghost use Rattle.sd_source.specs.nodes.Names.{found, put};

use crate::nodes::access::Access;
use indexmap::IndexMap;
use sd_list::{NoMemory, Sequence};
use std::alloc::Global;
use std::marker::Model;

/// What each function does with its parameters.
pub type ParameterTable = Table<Sequence<Option<Access>>>;

/// Things under names, each name once.
#[derive(Drop)]
pub struct Table<V> {
    entries: IndexMap<String, V>,
}

impl<V> Model for Table<V> {
    ghost use Rattle.std.specs.Prelude.{List, ℕ};
    ghost use Rattle.sd_source.specs.nodes.Names.{named_entries};

    ghost Value = { List (List ℕ × V) };

    ghost view = { λ t. named_entries t.entries.entries };
}

impl<V> Table<V> {
    pub fn new(alloc: Global) -> Table<V>
        ensures { result ≡ [] }
    {
        Table {
            entries: IndexMap::new(alloc),
        }
    }

    /// What is under the name.
    #[tactic(auto, using(crate::proofs::nodes_lemmas::NameLemmas::found_named))]
    pub fn find(&self, name: &str) -> Option<&V>
        ensures { option_copied result ≡ found self.now name.now }
    {
        self.entries.get(name)
    }

    /// Puts something under a name, in the place of what was there, else behind all.
    #[tactic(auto, using(crate::proofs::nodes_lemmas::NameLemmas::put_named))]
    pub fn put(&mut self, alloc: Global, name: &str, value: V) -> Result<(), NoMemory>
    where
        V: Drop,
        ensures { OnOk result (self.new ≡ put self.old name.now value) }
    {
        self.entries.insert(String::from_str(alloc, name)?, value)?;
        Ok(())
    }
}

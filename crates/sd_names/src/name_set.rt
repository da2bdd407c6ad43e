//! Sets of names.
ghost use Rattle.std.specs.Prelude.{◌≡◌, IfOk, OnOk, [], map, string_bytes};
ghost use Rattle.sd_names.specs.Names.{is_among, noted, noted_all};

use indexmap::IndexSet;
use sd_list::NoMemory;
use std::alloc::Global;
use std::marker::Model;

/// Names, each once.
#[derive(Drop)]
pub struct NameSet {
    names: IndexSet<String>,
}

impl Model for NameSet {
    ghost use Rattle.std.specs.Prelude.{List, ℕ, map, string_bytes};

    ghost Value = { List (List ℕ) };

    ghost view = { λ s. map string_bytes s.names.keys };
}

impl NameSet {
    /// No names. Takes no memory: the allocator is for names to come.
    pub fn new(alloc: Global) -> NameSet
        ensures { result ≡ [] }
    {
        NameSet {
            names: IndexSet::new(alloc),
        }
    }

    /// The names of a list.
    pub fn of(alloc: Global, all: &[String]) -> Result<NameSet, NoMemory>
        ensures { IfOk result (λ set. set ≡ noted_all [] (map string_bytes all.now)) }
    {
        let mut names = NameSet::new(alloc);
        for name in all {
            names.note(alloc, name)?;
        }
        Ok(names)
    }

    /// Whether the name is there.
    #[inline(never)]
    #[tactic(auto, using(crate::proofs::TableLemmas::among_named))]
    pub fn contains(&self, name: &str) -> bool
        ensures { result ≡ is_among self.now name.now }
    {
        self.names.contains(name)
    }

    /// Adds a name, unless it is there.
    #[tactic(auto, using(crate::proofs::TableLemmas::noted_named))]
    pub fn note(&mut self, alloc: Global, name: &str) -> Result<(), NoMemory>
        ensures { OnOk result (self.new ≡ noted self.old name.now) }
    {
        self.names.insert(String::from_str(alloc, name)?)?;
        Ok(())
    }
}

ghost use Rattle.std.specs.Prelude.{◌≡◌, OnOk, [], length};
ghost use Rattle.sd_source.specs.nodes.Names.{is_among, with_name, with_own};

use indexmap::IndexSet;
use sd_list::NoMemory;
use std::alloc::Global;
use std::marker::Model;

/// Names, each once, in the order in which they came.
#[derive(Drop)]
pub struct NameSet {
    names: IndexSet<String>,
}

impl Model for NameSet {
    ghost use Rattle.std.specs.Prelude.{List, ℕ, map, string_bytes};

    ghost Value = { List (List ℕ) };

    ghost view = { λ s. map string_bytes s.names.keys };
}

impl NameSet {
    pub fn new(alloc: Global) -> NameSet
        ensures { result ≡ [] }
    {
        NameSet {
            names: IndexSet::new(alloc),
        }
    }

    pub fn len(&self) -> usize
        ensures { result ≡ length self.now }
    {
        self.names.len()
    }

    #[inline(never)]
    #[tactic(auto, using(crate::proofs::nodes_lemmas::NameLemmas::among_keys))]
    pub fn contains(&self, name: &str) -> bool
        ensures { result ≡ is_among self.now name.now }
    {
        self.names.contains(name)
    }

    /// Adds a name at the end, unless it is there.
    #[tactic(auto, using(crate::proofs::nodes_lemmas::NameLemmas::keys_with_name))]
    pub fn note(&mut self, alloc: Global, name: &str) -> Result<(), NoMemory>
        ensures { OnOk result (self.new ≡ with_name self.old name.now) }
    {
        if !self.contains(name) {
            self.names.insert(String::from_str(alloc, name)?)?;
        }
        Ok(())
    }

    /// Adds a name at the end, unless it is there or is none of a list's own.
    #[inline(never)]
    pub fn note_own(&mut self, alloc: Global, own: &NameSet, name: &str) -> Result<(), NoMemory>
        ensures { OnOk result (self.new ≡ with_own own.now self.old name.now) }
    {
        if own.contains(name) {
            self.note(alloc, name)?;
        }
        Ok(())
    }
}

ghost use Rattle.std.specs.Prelude.{◌≡◌, [], ◌∷◌, length, map, string_bytes, OnOk, OnErr};
ghost use Rattle.sd_program.specs.Names.{in_force};
ghost use Rattle.sd_task.specs.in_force.Names.{number_or, with_numbered};
ghost use Rattle.sd_task.specs.in_force.Stack.{without_newest, oldest};

use indexmap::IndexMap;
use sd_list::NoMemory;
use std::alloc::Global;
use std::marker::Model;

/// A name as it came into force, with what it stood for before.
#[derive(Drop)]
struct Entry {
    name: String,
    number: u32,
    hidden: Option<u32>,
}

/// Names in force with their numbers; the newest of a name counts.
#[derive(Drop)]
pub struct Scope {
    /// The names in force, the oldest first.
    entries: Vec<Entry>,
    /// What each name stands for; None where it is in force no longer.
    numbers: IndexMap<String, Option<u32>>,
}

impl Model for Scope {
    ghost use Rattle.std.specs.Prelude.{ℕ, []};
    ghost use Rattle.sd_program.specs.Names.{Named};
    ghost use Rattle.sd_task.specs.in_force.Stack.{stacked, KnowHidden, HasNumbers};

    ghost Value = { Named ℕ };

    ghost view = { λ scope. stacked scope.entries.items };

    ghost invariant = { λ scope. KnowHidden [] scope.entries.items × HasNumbers scope.numbers (stacked scope.entries.items) };
}

impl Scope {
    /// No name.
    pub fn new(alloc: Global) -> Scope
        ensures { result ≡ [] }
    {
        Scope {
            entries: Vec::new(alloc),
            numbers: IndexMap::new(alloc),
        }
    }

    /// One more name, the newest.
    #[tactic(auto, using(crate::proofs::in_force_lemmas::ScopeLemmas::stacked_grown))]
    pub fn push(&mut self, name: String, number: u32) -> Result<(), NoMemory>
        ensures grown { OnOk result (self.new ≡ (string_bytes name, number) ∷ self.old) }
        ensures kept { OnErr result (self.new ≡ self.old) }
    {
        self.entries.reserve(1)?;
        let hidden = self.find(name.as_str());
        self.numbers.insert(name.clone()?, Some(number))?;
        self.entries.push(Entry {
            name,
            number,
            hidden,
        })?;
        Ok(())
    }

    /// More names, the last one the newest; the first has this number.
    pub fn push_all(&mut self, alloc: Global, names: &[String], first: u32) -> Result<(), NoMemory>
        ensures { OnOk result (self.new ≡ with_numbered (map string_bytes names.now) first self.old) }
    {
        let mut next = first;
        for name in names {
            self.push(String::from_str(alloc, name.as_str())?, next)?;
            next = next.checked_add(1).ok_or(NoMemory)?;
        }
        Ok(())
    }

    /// How many names there are, those that a newer one hides too.
    #[tactic(auto, using(crate::proofs::in_force_lemmas::ScopeLemmas::stacked_length))]
    pub fn len(&self) -> usize
        ensures { result ≡ length self.now }
    {
        self.entries.len()
    }

    /// The oldest names alone, so many.
    #[tactic(auto, using(crate::proofs::in_force_lemmas::ScopeLemmas::oldest_popped))]
    pub fn truncate(&mut self, count: usize)
        ensures { self.new ≡ oldest count self.old }
    {
        while count < self.len() {
            self.pop();
        }
    }

    /// Without the newest name, if there is one.
    #[tactic(auto, using(crate::proofs::in_force_lemmas::ScopeLemmas::stacked_grown))]
    pub fn pop(&mut self)
        ensures { self.new ≡ without_newest self.old }
    {
        if let Some(entry) = self.entries.pop() {
            // The name has a place in the map, so no memory is wanted.
            let _put = self.numbers.insert(entry.name, entry.hidden);
        }
    }

    /// The number of a name.
    pub fn find(&self, name: &str) -> Option<u32>
        ensures { result ≡ in_force self.now name.now }
    {
        match self.numbers.get(name) {
            Some(number) => *number,
            None => None,
        }
    }

    /// The number of a name, or another where it is not in force.
    pub fn number_or(&self, other: u32, name: &str) -> u32
        ensures { result ≡ number_or other self.now name.now }
    {
        self.find(name).unwrap_or(other)
    }
}

//! What is in force at a line.
ghost use Rattle.std.specs.Prelude.{◌≡◌, IfOk, OnOk, [], take, is_some, length, map, string_bytes};
ghost use Rattle.std.specs.Option.{option_copied};
ghost use Rattle.sd_names.specs.Extents.{AreWithin};
ghost use Rattle.sd_names.specs.Names as names;

use crate::meaning::{Container, Meaning, Signature};
use crate::name_set::NameSet;
use crate::table::Table;
use sd_list::NoMemory;
use sd_range::Affine;
use std::alloc::Global;
use std::marker::Model;

/// What is in force at a line: what names mean that are no containers, the containers, and the names of
/// all containers that the program has declared, in force or not.
#[derive(Drop)]
pub struct Names {
    meanings: Table<Meaning>,
    containers: Table<Container>,
    declared: NameSet,
}

impl Model for Names {
    ghost use Rattle.sd_names.specs.Names as names;

    ghost Value = { names.Names };

    ghost view = { λ n. record { meanings = n.meanings; containers = n.containers; declared = n.declared } };
}

impl Names {
    /// Nothing is in force. Takes no memory: the allocator is for names to come.
    pub fn new(alloc: Global) -> Names
        ensures { result ≡ record { meanings = []; containers = []; declared = [] } }
    {
        Names {
            meanings: Table::new(alloc),
            containers: Table::new(alloc),
            declared: NameSet::new(alloc),
        }
    }

    /// What the name means that is no container.
    #[inline(never)]
    pub fn meaning(&self, name: &str) -> Option<&Meaning>
        ensures { option_copied result ≡ names.meaning_of self.now name.now }
    {
        self.meanings.find(name)
    }

    /// The place of the name among those that are no containers; it stays as long as the name is in force.
    pub fn place(&self, name: &str) -> u32
        ensures { result ≡ names.place_of self.now.meanings name.now }
    {
        self.meanings.place(name)
    }

    /// The container of this name.
    #[inline(never)]
    pub fn container(&self, name: &str) -> Option<&Container>
        ensures { option_copied result ≡ names.container_of self.now name.now }
    {
        self.containers.find(name)
    }

    /// Whether the name may be declared.
    pub fn is_free(&self, name: &str) -> bool
        ensures { result ≡ names.is_free self.now name.now }
    {
        !(is_reserved(name)
            || self.meaning(name).is_some()
            || self.container(name).is_some()
            || self.declared.contains(name))
    }

    /// Whether the name is that of a stream.
    pub fn is_stream(&self, name: &str) -> bool
        ensures { result ≡ names.is_stream self.now name.now }
    {
        match self.container(name) {
            Some(Container::Stream) => true,
            _ => false,
        }
    }

    /// Whether the name is that of an array.
    pub fn is_array(&self, name: &str) -> bool
        ensures { result ≡ names.is_array self.now name.now }
    {
        match self.container(name) {
            Some(Container::Array(_)) => true,
            _ => false,
        }
    }

    /// Whether the name stands for a number outside of tasklets.
    pub fn is_number(&self, name: &str) -> bool
        ensures { result ≡ names.is_number_kind (names.meaning_of self.now name.now) }
    {
        match self.meaning(name) {
            Some(Meaning::Symbol) | Some(Meaning::Variable) => true,
            _ => false,
        }
    }

    /// Whether the name stands for a number in a tasklet.
    pub fn is_number_in_code(&self, name: &str) -> bool
        ensures { result ≡ names.is_number_in_code (names.meaning_of self.now name.now) }
    {
        match self.meaning(name) {
            Some(Meaning::Symbol) | Some(Meaning::Variable) | Some(Meaning::Local) => true,
            Some(Meaning::Input(_)) => true,
            _ => false,
        }
    }

    /// Whether the name is that of an input connector.
    pub fn is_input(&self, name: &str) -> bool
        ensures { result ≡ names.is_input (names.meaning_of self.now name.now) }
    {
        match self.meaning(name) {
            Some(Meaning::Input(_)) => true,
            _ => false,
        }
    }

    /// Whether the name is that of an output connector.
    pub fn is_output(&self, name: &str) -> bool
        ensures { result ≡ names.is_output (names.meaning_of self.now name.now) }
    {
        match self.meaning(name) {
            Some(Meaning::Output(_)) => true,
            _ => false,
        }
    }

    /// Whether the name is that of a program which was read to its end.
    pub fn is_callable(&self, name: &str) -> bool
        ensures { result ≡ is_some (names.signature_by (names.meaning_of self.now name.now)) }
    {
        match self.meaning(name) {
            Some(Meaning::Program(signature)) => signature.is_some(),
            _ => false,
        }
    }

    /// The extents of the array, none where the name is none.
    pub fn extents(&self, name: &str) -> &[Affine]
        ensures extents { result.now ≡ names.extents_of self.now name.now }
        ensures within { AreWithin result.now }
    {
        match self.container(name) {
            Some(Container::Array(extents)) => extents.as_slice(),
            _ => &[],
        }
    }

    /// The number of dimensions of the connector, 0 where the name is none.
    pub fn dimensions(&self, name: &str) -> usize
        ensures { result ≡ names.dimensions_by (names.meaning_of self.now name.now) }
    {
        match self.meaning(name) {
            Some(Meaning::Input(dimensions)) => *dimensions,
            Some(Meaning::Output(dimensions)) => *dimensions,
            _ => 0,
        }
    }

    /// Whether the name is that of a loop variable or of a parameter of a map.
    pub fn is_variable(&self, name: &str) -> bool
        ensures { result ≡ names.is_variable_kind (names.meaning_of self.now name.now) }
    {
        match self.meaning(name) {
            Some(Meaning::Variable) => true,
            _ => false,
        }
    }

    /// What a call of the program needs; None where the name is none, or the program is still read.
    pub fn signature(&self, name: &str) -> Option<&Signature>
        ensures { option_copied result ≡ names.signature_by (names.meaning_of self.now name.now) }
    {
        match self.meaning(name) {
            Some(Meaning::Program(Some(signature))) => Some(signature),
            _ => None,
        }
    }

    /// How many names are in force that are no containers.
    pub fn meaning_count(&self) -> usize
        ensures { result ≡ length self.now.meanings }
    {
        self.meanings.len()
    }

    /// How many containers are in force.
    pub fn container_count(&self) -> usize
        ensures { result ≡ length self.now.containers }
    {
        self.containers.len()
    }

    /// Declares variables.
    pub fn declare_variables(
        &mut self,
        alloc: Global,
        parameters: &[String],
    ) -> Result<(), NoMemory>
        ensures { OnOk result (self.new ≡ names.all_meaning Meaning.Variable self.old (map string_bytes parameters.now)) }
    {
        for name in parameters {
            self.declare(alloc, name, Meaning::Variable)?;
        }
        Ok(())
    }

    /// Forgets all containers: they are those of a program that has ended.
    pub fn leave_program(&mut self, alloc: Global)
        ensures { self.new ≡ record { meanings = self.old.meanings; containers = []; declared = [] } }
    {
        self.containers = Table::new(alloc);
        self.declared = NameSet::new(alloc);
    }

    /// Keeps the first so many names that are no containers.
    pub fn leave(&mut self, count: usize)
        ensures { self.new ≡ record { meanings = take count self.old.meanings; containers = self.old.containers; declared = self.old.declared } }
    {
        self.meanings.truncate(count);
    }

    /// Keeps the first so many containers in force; the names of all stay known.
    pub fn leave_containers(&mut self, count: usize)
        ensures { self.new ≡ record { meanings = self.old.meanings; containers = take count self.old.containers; declared = self.old.declared } }
    {
        self.containers.truncate(count);
    }

    /// Declares a name that is no container. One that is there already gets the new meaning in its place.
    pub fn declare(&mut self, alloc: Global, name: &str, meaning: Meaning) -> Result<(), NoMemory>
        ensures { OnOk result (self.new ≡ names.with_meaning self.old name.now meaning) }
    {
        self.meanings.put(alloc, name, meaning)
    }

    /// Declares a container. One that is there already is replaced in its place.
    pub fn declare_container(
        &mut self,
        alloc: Global,
        name: &str,
        container: Container,
    ) -> Result<(), NoMemory>
        ensures { OnOk result (self.new ≡ names.with_container self.old name.now container) }
    {
        self.containers.put(alloc, name, container)?;
        self.declared.note(alloc, name)
    }
}

/// Whether a name may never be declared.
pub fn is_reserved(name: &str) -> bool
    ensures { result ≡ names.is_among names.reserved name.now }
{
    matches!(
        name,
        "dace"
            | "np"
            | "range"
            | "min"
            | "max"
            | "and"
            | "as"
            | "def"
            | "elif"
            | "else"
            | "for"
            | "if"
            | "import"
            | "in"
            | "lambda"
            | "not"
            | "or"
            | "while"
            | "with"
    )
}

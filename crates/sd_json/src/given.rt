ghost use Rattle.std.specs.Prelude.{◌≡◌, ◌≢◌, Ok, Err, All, map, IfOk, IfErr};
ghost use Rattle.sd_graph.specs.GraphMemory.{IsMemoryOf};
ghost use Rattle.sd_graph.specs.TreeFold.{graph_tree};
ghost use Rattle.sd_json.specs.Given.{Contents, IsFull};
ghost use Rattle.sd_json.specs.GivenMemory.{memory_given, HasArguments};

use crate::array::Array;
use crate::error::InputError;
use crate::fitting::wrong_shape;
use sd_graph::Bound;
use sd_list::{NoMemory, Sequence, Text};
use sd_mem::Memory;
use sd_valid::Sizes;
use std::alloc::Global;
use std::marker::Model;

/// What an arrays file gives to a graph: a value for each size symbol that it names, in source
/// order, and an array for each argument, in the order of the signature.
#[derive(Drop)]
pub struct Given {
    sizes: Sequence<(Text, i64)>,
    arrays: Sequence<Array>,
}

impl Model for Given {
    ghost use Rattle.std.specs.Prelude.{All};
    ghost use Rattle.sd_json.specs.Given.{Contents, IsFull};

    ghost Value = { Contents };

    ghost view = { λ given. record { sizes = given.sizes; arrays = given.arrays } };

    ghost invariant = { λ given. All IsFull given.arrays };
}

impl Given {
    /// The sizes, and the arrays with a number for each element of their shapes.
    pub(crate) fn new(sizes: Sequence<(Text, i64)>, arrays: Sequence<Array>) -> Given
        requires { All IsFull arrays }
        ensures sizes { result.sizes ≡ sizes }
        ensures arrays { result.arrays ≡ arrays }
    {
        Given { sizes, arrays }
    }

    /// The sizes that are given, each with the name of its symbol. A symbol that the file does not
    /// name has none.
    pub fn sizes(&self, alloc: Global) -> Result<Sizes, NoMemory>
        ensures { IfOk result (λ sizes. sizes.values ≡ self.now.sizes) }
    {
        let mut values = Vec::with_capacity(alloc, self.sizes.len())?;
        for (name, size) in self.sizes.as_slice() {
            values.push((name.copy_of(alloc)?, *size))?;
        }
        Ok(Sizes {
            values: Sequence::from(values),
        })
    }

    /// The memory that the bound graph opens with: its arguments with these arrays, zeros in its
    /// transients, and empty streams. Refused where the shape of an array is neither the extents of
    /// its argument nor a prefix of them that ends in 0; the first such argument is told.
    pub fn into_memory(self, alloc: Global, bound: &Bound) -> Result<Memory, InputError>
        ensures ok { IfOk result (λ memory. memory_given (graph_tree bound.now.graph) self.arrays ≡ Ok memory) }
        ensures err { IfErr result (λ error. error ≢ InputError.Memory → memory_given (graph_tree bound.now.graph) self.arrays ≡ Err error) }
        ensures whole { IfOk result (λ memory. HasArguments (graph_tree bound.now.graph) self.arrays → IsMemoryOf (graph_tree bound.now.graph) memory.contents) }
    {
        let Given { sizes, arrays } = self;
        drop(sizes);
        if let Some(name) = wrong_shape(&bound.graph.containers, arrays.as_slice()) {
            return Err(InputError::WrongShape(copied(alloc, name.as_str())?));
        }
        Ok(Memory::opening(alloc, bound, elements(alloc, arrays)?)?)
    }
}

/// A name as a text of its own.
fn copied(alloc: Global, name: &str) -> Result<Text, NoMemory>
    ensures { IfOk result (λ text. text ≡ name.now) }
{
    Ok(Text::from(name.to_string(alloc)?))
}

/// The elements of arrays. Each array is let go as soon as its elements are there.
fn elements(alloc: Global, arrays: Sequence<Array>) -> Result<Vec<Sequence<i64>>, NoMemory>
    ensures { IfOk result (λ lists. lists.items ≡ map (λ array. array.elements) arrays) }
{
    let mut lists = Vec::with_capacity(alloc, arrays.len())?;
    for array in arrays.into_vec() {
        let Array { shape, elements } = array;
        drop(shape);
        lists.push(elements.into_list(alloc)?)?;
    }
    Ok(lists)
}

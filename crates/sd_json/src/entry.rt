ghost use Rattle.std.specs.Prelude.{◌≡◌, unwrap_or, []};
ghost use Rattle.sd_json.specs.Entries.{size_of};

use crate::array::Array;
use crate::elements::Elements;
use sd_list::Sequence;
use std::alloc::Global;

/// What is kept of an entry of an arrays file.
#[derive(Drop)]
pub(crate) struct Entry {
    /// Its numbers from left to right, where each leaf is a whole number.
    pub(crate) numbers: Option<Elements>,
    /// Its length and those of its items, and so on, where they are the same all over.
    pub(crate) shape: Option<Sequence<u64>>,
}

impl Entry {
    /// The whole number that it is, where it is one.
    pub(crate) fn size(&self) -> Option<i64>
        ensures { result ≡ size_of self.now }
    {
        match &self.shape {
            Some(shape) if shape.is_empty() => self.numbers.as_ref()?.first(),
            _ => None,
        }
    }

    /// The array that it is; what it has not is empty.
    pub(crate) fn into_array(self, alloc: Global) -> Array
        ensures shape { result.shape ≡ unwrap_or self.shape [] }
        ensures elements { result.elements ≡ unwrap_or self.numbers [] }
    {
        let Entry { numbers, shape } = self;
        let shape = match shape {
            Some(shape) => shape,
            None => Sequence::new(alloc),
        };
        let elements = match numbers {
            Some(numbers) => numbers,
            None => Elements::new(alloc),
        };
        Array { shape, elements }
    }
}

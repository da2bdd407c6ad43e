ghost use Rattle.std.specs.Prelude.{◌≡◌, ◌<◌, true, IsTrue};
ghost use Rattle.sd_range.specs.Subset.{inside};
ghost use Rattle.sd_graph.specs.TaskletMeaning.{Inputs as InputsNow, extents_of_connector, element_of};
ghost use Rattle.sd_tasklet.specs.tasklet.Given.{given, told_inputs, IsWhole};

use crate::tasklet::place::row_number;
use crate::tasklet::whole::{extents_at, have_few_dimensions, have_room};
use sd_list::Sequence;

/// What code is given.
///
/// `values` has the elements of each input connector in row order. `extents` has those of every
/// connector, the outputs behind the inputs; a scalar has none, and a connector without an entry
/// counts as a scalar. An extent above 2^63 may be given as 2^63, which no subscript can tell
/// apart. `variables` has the values of the code's variables.
#[derive(Drop)]
pub struct Inputs {
    pub values: Sequence<Sequence<i64>>,
    pub extents: Sequence<Sequence<u64>>,
    pub variables: Sequence<i64>,
}

impl Inputs {
    /// The extents of a connector.
    pub(crate) fn extents_of(&self, connector: u32) -> &[u64]
        ensures { result.now ≡ extents_of_connector (given self.now) connector }
    {
        extents_at(self.extents.as_slice(), connector as usize)
    }

    /// Whether `eval` may be given this: no connector has more than four dimensions, and each input has
    /// as many elements as its extents multiply to.
    pub fn is_whole(&self) -> bool
        ensures yes { IsTrue result → IsWhole (given self.now) }
        ensures no { IsWhole (given self.now) → IsTrue result }
    {
        let extents = self.extents.as_slice();
        have_few_dimensions(extents) && have_room(extents, self.values.as_slice())
    }

    /// The element of an input connector at a place in it.
    pub(crate) fn element(&self, connector: u32, at: &[i64]) -> i64
        requires whole { IsWhole (given self.now) }
        requires inside { inside (extents_of_connector (given self.now) connector) at.now ≡ true }
        ensures { (meant : InputsNow) → told_inputs (given self.now) ≡ told_inputs meant → result ≡ element_of meant connector at.now }
    {
        match self.values.as_slice().get(connector as usize) {
            Some(elements) => elements.as_slice()[row_number(self.extents_of(connector), at)],
            None => 0,
        }
    }
}

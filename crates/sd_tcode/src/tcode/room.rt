ghost use Rattle.std.specs.Prelude.{◌≡◌, ◌<◌, ◌^◌, length, map, IsTrue};
ghost use Rattle.sd_graph.specs.TaskletMeaning.{extents_of_connector};
ghost use Rattle.sd_tasklet.specs.tasklet.Given.{IsWhole};
ghost use Rattle.sd_tcode.specs.tcode.Held.{IsFrameOf, IsReady, IsWholeAt, given, room_for, may_have};

use crate::op::Array;
use crate::tcode::code::Code;
use crate::tcode::frame::Frame;
use sd_tasklet::has_room;

/// Arrays have so many dimensions each.
fn have_dims(arrays: &[Array], dims: &[u32]) -> bool
    ensures yes { IsTrue result → map (λ array. length array.extents.items) arrays.now ≡ dims.now }
    ensures no { map (λ array. length array.extents.items) arrays.now ≡ dims.now → IsTrue result }
{
    if arrays.len() != dims.len() {
        return false;
    }
    for k in 0..dims.len() {
        if arrays[k].extents.len() != dims[k] as usize {
            return false;
        }
    }
    true
}

impl Frame {
    /// How many input connectors there are.
    fn input_count(&self) -> usize
        ensures { result ≡ length (given self.now).values }
    {
        self.inputs.min(self.registers.len()).min(self.arrays.len())
    }

    /// How many elements the input connector at a place has room for.
    fn room_at(&self, place: usize) -> usize
        ensures room { result ≡ room_for (given self.now) place }
        ensures few { result < 2 ^ 63 }
    {
        if place >= self.input_count() {
            return 0;
        }
        if self.arrays[place].extents.is_empty() {
            return 1;
        }
        self.arrays[place].cells.len()
    }

    /// How many elements an input connector has room for, one where it is a scalar. Another connector
    /// has none.
    pub fn room_for(&self, connector: u32) -> usize
        ensures { result ≡ room_for (given self.now) connector }
    {
        self.room_at(connector as usize)
    }

    /// The extents of the connector at a place.
    fn extents_at(&self, place: usize) -> &[u64]
        requires { place < length self.now.arrays.items }
        ensures { result.now ≡ extents_of_connector (given self.now) place }
    {
        &self.arrays[place].extents
    }

    /// Whether a connector may have these extents: as many as it has dimensions and, for an input, with
    /// room for as many elements as they multiply to.
    pub(crate) fn may_have(&self, connector: u32, extents: &[u64]) -> bool
        ensures { result ≡ may_have (given self.now) connector extents.now }
    {
        let place = connector as usize;
        if place >= self.arrays.len() || extents.len() != self.extents_at(place).len() {
            return false;
        }
        place >= self.input_count() || has_room(extents, self.room_at(place))
    }

    /// How many variables there are.
    pub fn variable_count(&self) -> usize
        ensures { result ≡ length (given self.now).variables }
    {
        let fixed = self.inputs.saturating_add(self.variables);
        fixed.min(self.registers.len()).saturating_sub(self.inputs)
    }

    /// Whether there is room for what this code needs.
    fn is_for(&self, code: &Code) -> bool
        ensures yes { IsTrue result → IsFrameOf code.now self.now }
        ensures no { IsFrameOf code.now self.now → IsTrue result }
    {
        self.inputs == code.layout.inputs as usize
            && self.variables == code.layout.variables as usize
            && self.registers.len() == code.registers
            && self.log.slots() == code.slots
            && have_dims(&self.arrays, &code.dims)
    }

    /// A connector has at most four dimensions and, as an input, room for its elements.
    fn is_whole_at(&self, connector: usize) -> bool
        requires { connector < length self.now.arrays.items }
        ensures yes { IsTrue result → IsWholeAt (given self.now) connector }
        ensures no { IsWholeAt (given self.now) connector → IsTrue result }
    {
        let extents = self.extents_at(connector);
        extents.len() <= 4
            && (connector >= self.input_count() || has_room(extents, self.room_at(connector)))
    }

    /// Whether each connector has at most four dimensions, and each input room for its elements.
    fn is_whole(&self) -> bool
        ensures yes { IsTrue result → IsWhole (given self.now) }
        ensures no { IsWhole (given self.now) → IsTrue result }
    {
        for connector in 0..self.arrays.len() {
            if !self.is_whole_at(connector) {
                return false;
            }
        }
        true
    }

    /// Whether this code may be run on the frame, as `run` asks. A frame that was reserved for compiled
    /// code is ready, and stays so.
    pub fn is_ready(&self, code: &Code) -> bool
        ensures yes { IsTrue result → IsReady code.now self.now }
        ensures no { IsReady code.now self.now → IsTrue result }
    {
        self.is_for(code) && self.is_whole()
    }
}

ghost use Rattle.std.specs.Prelude.{◌≡◌, ◌+◌, ◌<◌, length, map, replicate, slice_index_or, if◌then◌else◌, ◌==◌, pos, IfOk};
ghost use Rattle.sd_graph.specs.PlainTree.{TaskletTree};
ghost use Rattle.sd_tcode.specs.tcode.Compiled.{Compiled, IsCodeOf};
ghost use Rattle.sd_tcode.specs.tcode.Held.{IsFrameOf, IsReady, given, output_of, room_for, may_have, zero_cells, with_element, with_extents, with_variable, zeros_for};

use crate::op::{Array, Log};
use crate::tcode::code::Code;
use sd_list::NoMemory;
use sd_tasklet::Effect;
use std::alloc::Global;

/// Room for the runs of one code: what it is given, what it computes on the way, and its effects.
#[derive(Drop)]
pub struct Frame {
    pub(crate) registers: Vec<i64>,
    pub(crate) arrays: Vec<Array>,
    pub(crate) log: Log,
    pub(crate) inputs: usize,
    pub(crate) variables: usize,
}

/// So many zeros.
fn zeros(alloc: Global, count: usize) -> Result<Vec<i64>, NoMemory>
    ensures { IfOk result (λ values. values.items ≡ replicate count (pos 0)) }
{
    Ok(vec![in alloc; 0i64; count]?)
}

/// How many elements a connector has room for in its array.
fn cells_for(count: u32, k: usize, widest: &[u64]) -> usize
    ensures { result ≡ (if count == 0 then 0 else slice_index_or widest.now k 0) }
{
    if count > 0 && k < widest.len() {
        widest[k] as usize
    } else {
        0
    }
}

/// Zeros for the connectors, of these dimensions: an input connector that is no scalar has so many
/// elements.
fn zero_arrays(alloc: Global, dims: &[u32], widest: &[u64]) -> Result<Vec<Array>, NoMemory>
    ensures extents { IfOk result (λ arrays. map (λ array. array.extents.items) arrays.items ≡ map (λ count. replicate count 0) dims.now) }
    ensures cells { IfOk result (λ arrays. map (λ array. array.cells.items) arrays.items ≡ zero_cells dims.now widest.now) }
{
    let mut arrays = Vec::with_capacity(alloc, dims.len())?;
    for k in 0..dims.len() {
        arrays.push(Array {
            extents: vec![in alloc; 0u64; dims[k] as usize]?,
            cells: zeros(alloc, cells_for(dims[k], k, widest))?,
        })?;
    }
    Ok(arrays)
}

impl Frame {
    /// Room for inputs with up to so many elements each, and for all effects. A scalar has one element
    /// whatever is said of it. Everything is 0.
    pub fn reserve(alloc: Global, code: &Code, widest: &[u64]) -> Result<Frame, NoMemory>
        requires { length widest.now ≡ code.now.layout.inputs }
        ensures frame { IfOk result (IsFrameOf code.now) }
        ensures given { IfOk result (λ frame. given frame ≡ zeros_for code.now widest.now) }
        ensures ready { IfOk result (λ frame. (tree : TaskletTree) → IsCodeOf tree code.now → IsReady code.now frame) }
    {
        Ok(Frame {
            registers: zeros(alloc, code.registers)?,
            arrays: zero_arrays(alloc, &code.dims, widest)?,
            log: Log::reserve(alloc, code.slots)?,
            inputs: code.layout.inputs as usize,
            variables: code.layout.variables as usize,
        })
    }

    /// Gives an input connector the element at a place in row order.
    #[inline(always)]
    pub fn load(&mut self, connector: u32, at: u64, value: i64)
        requires { at < room_for (given self.old) connector }
        ensures given { given self.new ≡ with_element (given self.old) connector at value }
        ensures ready { (code : Compiled) → IsReady code self.old → IsReady code self.new }
    {
        let connector = connector as usize;
        if self.arrays[connector].extents.is_empty() {
            self.registers[connector] = value;
        } else {
            self.arrays[connector].cells[at as usize] = value;
        }
    }

    /// Sets the extents of a connector, and tells whether it may have them: as many as it has
    /// dimensions and, for an input, with room for as many elements as they multiply to. Else nothing
    /// changes.
    pub fn shape(&mut self, connector: u32, extents: &[u64]) -> bool
        ensures may { result ≡ may_have (given self.old) connector extents.now }
        ensures given { given self.new ≡ (if result then with_extents (given self.old) connector extents.now else given self.old) }
        ensures ready { (code : Compiled) → IsReady code self.old → IsReady code self.new }
    {
        if !self.may_have(connector, extents) {
            return false;
        }
        self.arrays[connector as usize]
            .extents
            .copy_from_slice(extents);
        true
    }

    /// Sets a variable.
    #[inline(always)]
    pub fn set(&mut self, variable: u32, value: i64)
        requires { variable < length (given self.old).variables }
        ensures given { given self.new ≡ with_variable (given self.old) variable value }
        ensures ready { (code : Compiled) → IsReady code self.old → IsReady code self.new }
    {
        self.registers[self.inputs + variable as usize] = value;
    }

    /// The effects of the last run, in the order in which they were assigned.
    pub fn effects(&self) -> &[Effect]
        ensures { result.now ≡ self.now.log.0 }
    {
        self.log.as_slice()
    }

    /// The output that plain code left.
    #[inline(always)]
    pub fn output(&self, connector: u32) -> i64
        requires { self.now.variables + connector < length self.now.registers.items }
        ensures { result ≡ output_of self.now connector }
    {
        self.registers[self.variables + connector as usize]
    }
}

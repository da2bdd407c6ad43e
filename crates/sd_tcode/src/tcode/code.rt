use crate::op::Op;
use crate::tcode::layout::Layout;
use std::marker::Model;

/// The flat code of a tasklet.
#[derive(Drop)]
pub struct Code {
    pub(crate) ops: Vec<Op>,
    pub(crate) layout: Layout,
    pub(crate) dims: Vec<u32>,
    pub(crate) registers: usize,
    pub(crate) slots: usize,
    pub(crate) plain: Option<Vec<u32>>,
}

impl Model for Code {
    ghost use Rattle.sd_tcode.specs.tcode.Compiled.{Compiled};

    ghost Value = { Compiled };

    ghost use Rattle.sd_tcode.specs.tcode.CodeView.{compiled, IsSafeInside};

    ghost view = { compiled };

    ghost invariant = { IsSafeInside };
}

impl Code {
    ghost use Rattle.std.specs.Prelude.{◌≡◌, option_map};
    ghost use Rattle.sd_tcode.specs.tcode.Compiled.{IsSafe};

    /// Code of these instructions, with the dimensions of each connector, how many registers and
    /// effects there are, and the outputs of plain code in the order in which it sets them.
    pub fn new(
        ops: Vec<Op>,
        layout: Layout,
        dims: Vec<u32>,
        registers: usize,
        slots: usize,
        plain: Option<Vec<u32>>,
    ) -> Code
        requires { IsSafe (record { ops = ops.items; layout = layout; dims = dims.items; registers = registers; slots = slots; plain = option_map (λ order. order.items) plain }) }
        ensures { result ≡ record { ops = ops.items; layout = layout; dims = dims.items; registers = registers; slots = slots; plain = option_map (λ order. order.items) plain } }
    {
        Code {
            ops,
            layout,
            dims,
            registers,
            slots,
            plain,
        }
    }

    /// How many input connectors the code has.
    pub fn input_count(&self) -> usize
        ensures count { result ≡ self.now.layout.inputs }
        ensures safe { IsSafe self.now }
    {
        self.layout.inputs as usize
    }

    /// The instructions.
    pub fn ops(&self) -> &[Op]
        ensures ops { result.now ≡ self.now.ops }
        ensures safe { IsSafe self.now }
    {
        self.ops.as_slice()
    }

    /// How many registers the instructions name.
    pub fn register_count(&self) -> usize
        ensures { result ≡ self.now.registers }
    {
        self.registers
    }

    /// The dimensions of each connector.
    pub fn dims(&self) -> &[u32]
        ensures { result.now ≡ self.now.dims }
    {
        self.dims.as_slice()
    }

    /// How many registers there are for each thing that the tasklet names.
    pub fn layout(&self) -> Layout
        ensures { result ≡ self.now.layout }
    {
        self.layout
    }

    /// The outputs in the order in which the code sets them, where each is a scalar that is set exactly
    /// once, outside of branches; `run_plain` leaves them in registers.
    pub fn plain(&self) -> Option<&[u32]>
        ensures { option_map (λ order. order.now) result ≡ self.now.plain }
    {
        match &self.plain {
            Some(order) => Some(order.as_slice()),
            None => None,
        }
    }
}

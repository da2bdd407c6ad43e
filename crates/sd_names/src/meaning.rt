//! What names mean.
use crate::extents::Extents;
use sd_list::Sequence;

/// A parameter of a program: its extents, and whether the program writes it.
#[derive(Drop)]
pub struct Parameter {
    pub extents: Extents,
    pub is_written: bool,
}

/// What a call of a program needs.
#[derive(Drop)]
pub struct Signature {
    pub parameters: Sequence<Parameter>,
    /// The longest chain of calls below the program.
    pub depth: usize,
}

/// What a name means that is no container.
#[derive(Drop)]
pub enum Meaning {
    /// A size symbol.
    Symbol,
    /// The variable of a loop, or a parameter of a map.
    Variable,
    /// A program; None while it is read.
    Program(Option<Signature>),
    /// The second parameter of a consume, which nothing may use.
    Worker,
    /// An input connector of a tasklet with its number of dimensions, 0 for a scalar.
    Input(usize),
    /// An output connector.
    Output(usize),
    /// A local of a tasklet.
    Local,
}

/// A container in force.
#[derive(Drop)]
pub enum Container {
    Array(Extents),
    Stream,
}

use crate::nodes::table::{ParameterTable, Table};

/// The functions so far.
#[derive(Drop)]
pub struct Functions {
    pub parameters: ParameterTable,
    /// How many nodes the graph of each has, those of nested graphs counted at each call.
    pub counts: Table<u32>,
}

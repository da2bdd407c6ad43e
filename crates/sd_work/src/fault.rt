/// Why an execution stops.
#[derive(Clone, Copy, Debug, PartialEq, Eq)]
pub enum FaultKind {
    /// A division by zero.
    Division,
    /// A subscript outside of its container or connector.
    Subscript,
}

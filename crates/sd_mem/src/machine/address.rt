/// A container of a memory of the stack. The memory is counted from the innermost, which is 0.
#[derive(Clone, Copy, Debug, PartialEq, Eq)]
pub struct Station {
    pub level: usize,
    pub container: u32,
}

/// An element of an array of a memory of the stack, by its number in row order.
#[derive(Clone, Copy, Debug, PartialEq, Eq)]
pub struct Address {
    pub station: Station,
    pub element: u64,
}

use crate::elements::Elements;
use sd_list::Sequence;

/// The array of one argument: an extent for each dimension, and the elements in row order.
#[derive(Drop)]
pub struct Array {
    pub shape: Sequence<u64>,
    pub elements: Elements,
}

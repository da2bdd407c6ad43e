//! Boxes of accesses in numbers, where the variables have values.
mod interval;
mod number_box;

pub use interval::Interval;
pub use number_box::NumberBox;
pub(crate) use number_box::number_boxes;

//! Arrays files read, and arrays printed.
//!
//! `read_arrays` gives the sizes and the arrays that a file has for a graph, or the first case that
//! refuses it, exactly as `specs/ArraysReading.antt` tells of the value that the bytes are as JSON.
//! `Given::into_memory` puts the arrays into the memory that the graph opens with, or tells the
//! first one of a wrong shape. `array_line` and `arrays_text` print (`specs/AnswerText.antt`).
#![tactic(auto)]

mod array;
mod elements;
mod entries;
mod entry;
mod error;
mod fault;
mod fitting;
mod given;
mod kept;
mod laws;
mod leaf;
mod names;
mod numbers;
mod object;
mod reading;
mod rows;
mod stop;
mod text;
mod walk;

pub use array::Array;
pub use elements::Elements;
pub use error::InputError;
pub use given::Given;
pub use laws::{
    a_shape_has_a_number_for_each_element, a_shape_is_that_of_all_items, arguments_are_arrays,
};
pub use names::Names;
pub use reading::read_arrays;
pub use text::{array_line, arrays_text, elements_text, line_head};

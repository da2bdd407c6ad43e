//! The law that each error of a source has one of ten numbers and a line of the text, over definitions alone.
//!
//! The tokens of a text stand on its lines (`PhysicalLines.antt`, `TextLines.antt`), so the logical lines and what they say do
//! (`LogicalLines.antt`, `SaidLines.antt`), and so does all that is known between them (`Known.antt`).
mod laws;

pub use laws::an_error_has_a_number_and_a_line;

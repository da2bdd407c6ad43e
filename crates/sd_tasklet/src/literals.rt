//! The code of a tasklet with its numbers in variables behind its own.
//!
//! Where the code is run many times, a variable is set once, and a number is put into a register by each
//! run. `Lifted` has the code so (`specs/literals/Literals.antt`); with the numbers as the values of those variables
//! it means what it meant.
mod laws;
mod lifting;
mod numbers;

pub use laws::code_with_its_numbers_in_variables_means_the_same;
pub use lifting::Lifted;

//! The graph of a program means what its source says: laws over definitions alone. There is no code here.
//!
//! `meant` has the theorem, in both directions. `elements`, `tasklets`, `items`, `states` and `programs` tie what each form
//! says to what its part of the graph does. `made`, `joined` and `plain_elements` have what these ask of the graph and
//! of the source, of programs that were read.
#![tactic(auto)]

mod elements;
mod items;
mod joined;
mod made;
mod meant;
mod plain_elements;
mod programs;
mod states;
mod tasklets;

pub use elements::{
    a_condition_asks_what_it_says, a_copy_copies_what_it_says, a_reduction_reduces_what_it_says,
    an_affine_expression_has_its_value, an_element_statement_does_what_it_says,
};
pub use items::{a_block_of_a_scope_does_what_it_says, a_statement_does_what_it_says};
pub use joined::tasklets_that_were_read_are_joined;
pub use made::the_states_of_a_block_stand_as_they_are_made;
pub use meant::{a_graph_does_what_its_source_says, a_graph_does_what_its_text_says};
pub use plain_elements::elements_that_were_read_have_plain_names;
pub use programs::a_program_does_what_it_says;
pub use states::a_block_of_a_program_does_what_it_says;
pub use tasklets::{a_tasklet_does_what_it_says, a_tasklet_on_an_element_does_what_it_says};

//! Element values: two's complement numbers of 64 and of 32 bits.
//!
//! Sum, difference, product and quotient are the exact ones, taken modulo 2^64 as signed
//! numbers (`specs/Wrapped.antt`), and so is a wider number; division rounds down and refuses a
//! divisor of 0 alone (`specs/Floor.antt`). A resolution makes one value of an old and a new one
//! (`specs/Resolution.antt`); by `laws`, many values give the same in every order, but by the
//! last one, and through partial results. What is stored is wrapped to the width of its element
//! (`specs/Width.antt`); by `storing`, such values too give the same in every order and through
//! partial results. Nothing here takes memory or faults.
#![tactic(auto)]

mod floor;
mod laws;
mod resolution;
mod storing;
mod width;
mod wrapping;

pub use floor::{floor_div, floor_mod};
pub use laws::{
    a_floor_division_has_its_values, a_floor_division_has_one_result, an_identity_changes_nothing,
    partial_results_merge, resolving_associates, resolving_commutes, resolving_in_any_order,
    resolving_part_by_part,
};
pub use resolution::{Resolution, identity, resolve, store};
pub use storing::{
    an_element_is_its_own_wrapped_value, an_identity_changes_no_element,
    partial_results_are_stored_as_their_values, storing_commutes, storing_in_any_order,
    what_is_stored_is_an_element, wrapping_twice_is_wrapping_once,
};
pub use width::{Cell, Width, wrap};
pub use wrapping::{add, element_of, mul, sub};

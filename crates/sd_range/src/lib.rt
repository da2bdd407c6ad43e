//! Affine expressions, ranges over them, the points of ranges, and subsets of containers.
//!
//! Values are exact, and sum, difference, product and substitution give the one normal form of
//! the right value (`specs/Affine.antt`, `Arithmetic.antt`). `Points` goes through exactly the
//! points of its ranges or of a piece of them, in lexicographic order (`Points.antt`). The
//! elements of a subset are defined in `Subset.antt`; `laws` says all this in plain words. Want
//! of memory is the one refusal; only constructors, `Terms::push`, copies and arithmetic take any.
#![tactic(auto)]

mod affine;
mod arithmetic;
mod axis;
mod env;
mod laws;
mod points;
mod range;
mod stage;
mod subset;
mod terms;

pub use affine::Affine;
pub use env::Env;
pub use laws::{
    a_coefficient_and_the_other_terms_are_no_larger_than_all,
    a_combination_is_no_larger_than_its_parts, a_difference_has_the_difference_of_values,
    a_piece_has_the_points_of_its_values, a_product_has_the_product_of_the_value,
    a_substituted_variable_has_the_value_of_its_expression, a_sum_has_the_sum_of_values,
    a_variable_that_is_set_has_its_value, an_index_has_the_values_of_a_range_of_one,
    an_index_is_inside_where_each_number_is_one_of_its_extent, arithmetic_keeps_the_normal_form,
    elements_choose_an_index_of_each_dimension, equal_values_make_equal_expressions,
    pieces_partition_the_points, points_are_in_lexicographic_order,
    small_expressions_have_combinations_that_fit, small_expressions_have_values,
    tuples_choose_one_of_each, values_are_steps_up_to_each_end,
};
pub use points::Points;
pub use range::Range;
pub use subset::{Dim, Subset};
pub use terms::Terms;

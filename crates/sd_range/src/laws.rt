//! What the definitions mean, in words of their own: each law is a function that does nothing.

mod affine;
mod points;
mod subset;
mod variables;

pub use affine::{
    a_coefficient_and_the_other_terms_are_no_larger_than_all,
    a_combination_is_no_larger_than_its_parts, a_difference_has_the_difference_of_values,
    a_product_has_the_product_of_the_value, a_substituted_variable_has_the_value_of_its_expression,
    a_sum_has_the_sum_of_values, arithmetic_keeps_the_normal_form,
    equal_values_make_equal_expressions, small_expressions_have_combinations_that_fit,
    small_expressions_have_values,
};
pub use points::{
    a_piece_has_the_points_of_its_values, pieces_partition_the_points,
    points_are_in_lexicographic_order, tuples_choose_one_of_each, values_are_steps_up_to_each_end,
};
pub use subset::{
    an_index_has_the_values_of_a_range_of_one,
    an_index_is_inside_where_each_number_is_one_of_its_extent,
    elements_choose_an_index_of_each_dimension,
};
pub use variables::a_variable_that_is_set_has_its_value;

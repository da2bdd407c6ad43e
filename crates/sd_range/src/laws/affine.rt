ghost use Rattle.std.specs.Prelude.{◌≡◌, ◌↔◌, ◌<◌, ◌≤◌, ◌+◌, ◌*◌, ◌^◌, ℕ, ℤ, ◌+ℤ◌, ◌-ℤ◌, ◌*ℤ◌, unsigned_abs, List, length, slice_set};
ghost use Rattle.std.specs.List.{All};
ghost use Rattle.sd_range.specs.Terms.{IsNormal, coefficient_of};
ghost use Rattle.sd_range.specs.Affine.{affine_value, IsEvaluable};
ghost use Rattle.sd_range.specs.Weight.{weight_of};
ghost use Rattle.sd_range.specs.Arithmetic.{affine_sum, affine_difference, affine_product, combination, others_of, substituted, IsRepresentable};
ghost use Rattle.sd_range.specs.declared.affine.Affine.{Affine};

/// The value of a sum is the sum of the values.
pub fn a_sum_has_the_sum_of_values()
    ensures { (a b : Affine) (values : List ℤ)
        → affine_value values (affine_sum a b) ≡ affine_value values a +ℤ affine_value values b }
{}

/// The value of a difference is the difference of the values.
pub fn a_difference_has_the_difference_of_values()
    ensures { (a b : Affine) (values : List ℤ)
        → affine_value values (affine_difference a b) ≡ affine_value values a -ℤ affine_value values b }
{}

/// The value of a product with a number is the product with the value.
pub fn a_product_has_the_product_of_the_value()
    ensures { (factor : ℤ) (a : Affine) (values : List ℤ)
        → affine_value values (affine_product factor a) ≡ factor *ℤ affine_value values a }
{}

/// Where an expression stands for a variable the value is as if the variable had that
/// expression's value.
pub fn a_substituted_variable_has_the_value_of_its_expression()
    ensures { (variable : ℕ) (by a : Affine) (values : List ℤ)
        → IsNormal a.terms → variable < length values
        → affine_value values (substituted variable by a)
        ≡ affine_value (slice_set values variable (affine_value values by)) a }
{}

/// In normal form two expressions are one where they have one value whatever the variables are.
pub fn equal_values_make_equal_expressions()
    ensures { (a b : Affine) (count : ℕ)
        → IsNormal a.terms → IsNormal b.terms
        → All (λ term. term.0 < count) a.terms → All (λ term. term.0 < count) b.terms
        → ((values : List ℤ) → length values ≡ count → affine_value values a ≡ affine_value values b)
        → a ≡ b }
{}

/// Arithmetic gives normal forms.
pub fn arithmetic_keeps_the_normal_form()
    ensures sum { (a b : Affine) → IsNormal a.terms → IsNormal b.terms → IsNormal (affine_sum a b).terms }
    ensures difference { (a b : Affine) → IsNormal a.terms → IsNormal b.terms → IsNormal (affine_difference a b).terms }
    ensures product { (factor : ℤ) (a : Affine) → IsNormal a.terms → IsNormal (affine_product factor a).terms }
    ensures substituted { (variable : ℕ) (by a : Affine) → IsNormal by.terms → IsNormal a.terms → IsNormal (substituted variable by a).terms }
{}

/// What is combined of two expressions is no larger than both together: neither its constant nor
/// the sum of its coefficients' sizes. A sum has the factor 1, a difference -1.
pub fn a_combination_is_no_larger_than_its_parts()
    ensures constant { (a b : Affine) (factor : ℤ)
        → unsigned_abs (combination a factor b).constant ≤ unsigned_abs a.constant + unsigned_abs factor * unsigned_abs b.constant }
    ensures weight { (a b : Affine) (factor : ℤ)
        → weight_of (combination a factor b).terms ≤ weight_of a.terms + unsigned_abs factor * weight_of b.terms }
{}

/// A coefficient and the terms of the other variables are no larger together than all terms; so
/// what a substitution makes, a combination of these, is bounded too.
pub fn a_coefficient_and_the_other_terms_are_no_larger_than_all()
    ensures { (variable : ℕ) (terms : List (ℕ × ℤ))
        → unsigned_abs (coefficient_of terms variable) + weight_of (others_of variable terms) ≤ weight_of terms }
{}

/// An expression and another so many times have numbers that fit, where they are small.
pub fn small_expressions_have_combinations_that_fit()
    ensures { (a b : Affine) (factor : ℤ)
        → unsigned_abs a.constant + unsigned_abs factor * unsigned_abs b.constant < 2 ^ 127
        → weight_of a.terms + unsigned_abs factor * weight_of b.terms < 2 ^ 127
        → IsRepresentable (combination a factor b) }
{}

/// A small expression has a value that fits where its variables have small values.
pub fn small_expressions_have_values()
    ensures { (a : Affine) (values : List ℤ) (most : ℕ)
        → All (λ term. term.0 < length values) a.terms
        → All (λ value. unsigned_abs value ≤ most) values
        → unsigned_abs a.constant + weight_of a.terms * most < 2 ^ 127
        → IsEvaluable values a }
{}

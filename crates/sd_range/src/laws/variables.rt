ghost use Rattle.std.specs.Prelude.{◌≡◌, ◌≢◌, ◌<◌, ℕ, ℤ, List, length, slice_set};
ghost use Rattle.sd_range.specs.Affine.{variable_value};
ghost use Rattle.sd_range.specs.Variables.{with_variable};

/// A variable that is set has its value, the others keep theirs, and where it had a value before
/// the list stays as long as it was.
pub fn a_variable_that_is_set_has_its_value()
    ensures set { (variable : ℕ) (value : ℤ) (values : List ℤ)
        → variable_value (with_variable variable value values) variable ≡ value }
    ensures kept { (variable other : ℕ) (value : ℤ) (values : List ℤ)
        → variable ≢ other → variable_value (with_variable variable value values) other ≡ variable_value values other }
    ensures replaced { (variable : ℕ) (value : ℤ) (values : List ℤ)
        → variable < length values → with_variable variable value values ≡ slice_set values variable value }
{}

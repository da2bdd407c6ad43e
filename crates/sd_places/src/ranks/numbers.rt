//! Lists of numbers.
ghost use Rattle.std.specs.Prelude.{◌≡◌, slice_index_or};
ghost use Rattle.sd_graph.specs.Wiring as wiring;

/// Whether a number is among these.
pub fn has_number(numbers: &[u32], number: u32) -> bool
    ensures { result ≡ wiring.has_number numbers.now number }
{
    for other in numbers {
        if number == *other {
            return true;
        }
    }
    false
}

/// The number at a place among the variables of code, 0 where there is none.
pub fn variable_at(variables: &[u32], place: u32) -> u32
    ensures { result ≡ slice_index_or variables.now place 0 }
{
    match variables.get(place as usize) {
        Some(variable) => *variable,
        None => 0,
    }
}

//! The numbers that stand in code.
use sd_graph::{Act, Value};
use sd_list::NoMemory;

/// So many numbers have variables; code with more of them keeps the others, so that none is looked for among many.
const MOST_NUMBERS: usize = 64;

/// A number comes to others, unless it is among them or they are many.
fn add_number(numbers: &mut Vec<i64>, number: i64) -> Result<(), NoMemory> {
    if numbers.len() < MOST_NUMBERS && !numbers.contains(&number) {
        numbers.push(number)?;
    }
    Ok(())
}

/// The numbers of statements come to others.
#[cycle(acts)]
pub(crate) fn add_acts(numbers: &mut Vec<i64>, acts: &[Act]) -> Result<(), NoMemory> {
    for act in acts {
        add_act(numbers, act)?;
    }
    Ok(())
}

#[cycle(acts)]
fn add_act(numbers: &mut Vec<i64>, act: &Act) -> Result<(), NoMemory> {
    match act {
        Act::Local { value, .. } => add_value(numbers, value),
        Act::Out { at, value, .. } => {
            add_values(numbers, at)?;
            add_value(numbers, value)
        }
        Act::When { when, body, other } => {
            add_value(numbers, when)?;
            add_acts(numbers, body)?;
            add_acts(numbers, other)
        }
    }
}

#[cycle(values)]
fn add_value(numbers: &mut Vec<i64>, value: &Value) -> Result<(), NoMemory> {
    match value {
        Value::Number(number) => add_number(numbers, *number),
        Value::Variable(_) | Value::Local(_) => Ok(()),
        Value::Input { at, .. } => add_values(numbers, at),
        Value::One { of, .. } => add_value(numbers, of),
        Value::Two { left, right, .. } => {
            add_value(numbers, left)?;
            add_value(numbers, right)
        }
        Value::Choice { value, when, other } => {
            add_value(numbers, value)?;
            add_value(numbers, when)?;
            add_value(numbers, other)
        }
    }
}

#[cycle(values)]
fn add_values(numbers: &mut Vec<i64>, values: &[Value]) -> Result<(), NoMemory> {
    for value in values {
        add_value(numbers, value)?;
    }
    Ok(())
}

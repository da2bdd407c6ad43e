//! The text of an affine expression.
ghost use Rattle.std.specs.Prelude.{◌≡◌, ◌++◌, nat_eq, pos, ◌+ℤ◌, int_lt, unsigned_abs, map, not, string_bytes, IfOk, OnOk};
ghost use Rattle.std.specs.List.{filter};
ghost use Rattle.sd_graph.specs.Wiring as wiring;
ghost use Rattle.sd_print.specs.graphs.AffineText as definition;

use sd_list::NoMemory;
use sd_range::Affine;
use std::alloc::Global;

/// Adds the name of a variable; nothing where there is no such variable.
pub(crate) fn push_variable(
    text: &mut String,
    names: &[String],
    variable: u32,
) -> Result<(), NoMemory>
    ensures { OnOk result (string_bytes text.new ≡ string_bytes text.old ++ definition.variable_name (map string_bytes names.now) variable) }
{
    if let Some(name) = names.get(variable as usize) {
        text.push_str(name.as_str())?;
    }
    Ok(())
}

/// Whether a number is among these.
fn has_number(numbers: &[u32], number: u32) -> bool
    ensures { result ≡ wiring.has_number numbers.now number }
{
    for other in numbers {
        if number == *other {
            return true;
        }
    }
    false
}

/// Adds the terms of a variable.
fn push_terms_of(
    terms: &[(u32, i128)],
    variable: u32,
    found: &mut Vec<(u32, i128)>,
) -> Result<(), NoMemory>
    ensures { OnOk result (found.new.items ≡ found.old.items ++ filter (λ term. nat_eq term.0 variable) terms.now) }
{
    for term in terms {
        if term.0 == variable {
            found.push(*term)?;
        }
    }
    Ok(())
}

/// Adds the terms of other variables than these.
fn push_others(
    terms: &[(u32, i128)],
    order: &[u32],
    found: &mut Vec<(u32, i128)>,
) -> Result<(), NoMemory>
    ensures { OnOk result (found.new.items ≡ found.old.items ++ filter (λ term. not (wiring.has_number order.now term.0)) terms.now) }
{
    for term in terms {
        if !has_number(order, term.0) {
            found.push(*term)?;
        }
    }
    Ok(())
}

/// The terms of these variables in their order, and then those of others.
fn outermost_first(
    alloc: Global,
    order: &[u32],
    terms: &[(u32, i128)],
) -> Result<Vec<(u32, i128)>, NoMemory>
    ensures { IfOk result (λ found. found.items ≡ definition.outermost_first order.now terms.now) }
{
    let mut found = Vec::new(alloc);
    for variable in order {
        push_terms_of(terms, *variable, &mut found)?;
    }
    push_others(terms, order, &mut found)?;
    Ok(found)
}

/// Adds the sign before a term or constant.
fn push_sign(text: &mut String, is_first: bool, is_negative: bool) -> Result<(), NoMemory>
    ensures { OnOk result (string_bytes text.new ≡ string_bytes text.old ++ definition.sign_text is_first is_negative) }
{
    if is_negative {
        text.push_str("-")?;
    } else if !is_first {
        text.push_str("+")?;
    }
    Ok(())
}

/// Adds a factor and its sign.
fn push_factor(text: &mut String, size: u128) -> Result<(), NoMemory>
    ensures { OnOk result (string_bytes text.new ≡ string_bytes text.old ++ definition.factor_text size) }
{
    if size != 1 {
        write!(text, "{size}*")?;
    }
    Ok(())
}

/// Adds a term.
fn push_term(
    text: &mut String,
    names: &[String],
    is_first: bool,
    term: (u32, i128),
) -> Result<(), NoMemory>
    ensures { OnOk result (string_bytes text.new ≡ string_bytes text.old ++ definition.term_text (map string_bytes names.now) is_first term) }
{
    let (variable, coefficient) = term;
    push_sign(text, is_first, coefficient < 0)?;
    push_factor(text, coefficient.unsigned_abs())?;
    push_variable(text, names, variable)
}

/// Adds terms.
fn push_terms(text: &mut String, names: &[String], terms: &[(u32, i128)]) -> Result<(), NoMemory>
    ensures { OnOk result (string_bytes text.new ≡ string_bytes text.old ++ definition.terms_text (map string_bytes names.now) terms.now) }
{
    let Some((term, others)) = terms.split_first() else {
        return Ok(());
    };
    push_term(text, names, true, *term)?;
    for other in others {
        push_term(text, names, false, *other)?;
    }
    Ok(())
}

/// Adds a constant, by its sign and its size.
fn push_constant(
    text: &mut String,
    is_first: bool,
    is_negative: bool,
    size: u128,
) -> Result<(), NoMemory>
    ensures { OnOk result (string_bytes text.new ≡ string_bytes text.old ++ definition.constant_text is_first is_negative size) }
{
    if !is_first && size == 0 {
        return Ok(());
    }
    push_sign(text, is_first, is_negative)?;
    write!(text, "{size}")?;
    Ok(())
}

/// Adds terms from the outermost variable.
fn push_ordered(
    alloc: Global,
    text: &mut String,
    names: &[String],
    order: &[u32],
    terms: &[(u32, i128)],
) -> Result<(), NoMemory>
    ensures { OnOk result (string_bytes text.new ≡ string_bytes text.old ++ definition.terms_text (map string_bytes names.now) (definition.outermost_first order.now terms.now)) }
{
    let ordered = outermost_first(alloc, order, terms)?;
    push_terms(text, names, ordered.as_slice())
}

/// Adds an affine expression.
#[inline(never)]
pub fn push_affine(
    alloc: Global,
    text: &mut String,
    names: &[String],
    order: &[u32],
    a: &Affine,
) -> Result<(), NoMemory>
    ensures { OnOk result (string_bytes text.new ≡ string_bytes text.old ++ definition.affine_text (map string_bytes names.now) order.now a.now) }
{
    let terms = a.terms.as_slice();
    push_ordered(alloc, text, names, order, terms)?;
    push_constant(
        text,
        terms.len() == 0,
        a.constant < 0,
        a.constant.unsigned_abs(),
    )
}

/// The size of a number plus one.
fn size_of_next(number: i128) -> u128
    ensures { result ≡ unsigned_abs (number +ℤ pos 1) }
{
    if number < 0 {
        (number + 1).unsigned_abs()
    } else {
        number.unsigned_abs() + 1
    }
}

/// Whether a number plus one is negative.
fn is_next_negative(number: i128) -> bool
    ensures { result ≡ int_lt (number +ℤ pos 1) (pos 0) }
{
    number < -1
}

/// Adds the end of a range, plus one.
#[inline(never)]
pub fn push_end(
    alloc: Global,
    text: &mut String,
    names: &[String],
    order: &[u32],
    end: &Affine,
) -> Result<(), NoMemory>
    ensures { OnOk result (string_bytes text.new ≡ string_bytes text.old ++ definition.end_text (map string_bytes names.now) order.now end.now) }
{
    let terms = end.terms.as_slice();
    push_ordered(alloc, text, names, order, terms)?;
    push_constant(
        text,
        terms.len() == 0,
        is_next_negative(end.constant),
        size_of_next(end.constant),
    )
}

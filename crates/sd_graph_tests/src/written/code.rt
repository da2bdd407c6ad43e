//! Connectors and code: `INPUTS > OUTPUTS | CODE`.
//!
//! A connector is written as its link, and `0[0:2]/1` has one dimension. `/0` has no link, and `0[0]/` is a
//! link without a connector.
//!
//! In code an operator stands behind its operands: `i0 2 <`. `=o1` assigns the value before it to connector
//! 1, and the values before that are its subscripts; `=l0` assigns to a local. `+v2` puts variable 2 at the
//! end of the list of variables, by whose places `v0` goes, and `+l` is one local more. Where the value
//! before `when` is not 0, all statements before it are done.
use crate::written::links::link;
use sd_graph::{Act, Link, OneSign, Port, Tasklet, TwoSign, Value};
use sd_list::Text;
use std::alloc::Global;
use std::test::Fail;

/// Connectors and their links, with blanks between them.
fn connect(
    alloc: Global,
    text: &str,
    ports: &mut Vec<Port>,
    links: &mut Vec<Link>,
) -> Result<(), Fail> {
    for word in text.split_ascii_whitespace() {
        let (place, dims) = word.split_once('/').unwrap_or((word, "0"));
        if !place.is_empty() {
            links.push(link(alloc, place)?)?;
        }
        if !dims.is_empty() {
            let connector = Text::from(String::new(alloc));
            let dims = dims.parse()?;
            ports.push(Port { connector, dims })?;
        }
    }
    Ok(())
}

/// The last value that no word has taken yet.
fn last(values: &mut Vec<Value>) -> Result<Value, Fail> {
    Ok(values.pop().ok_or("no value")?)
}

/// The last two values with a sign between them.
fn two(alloc: Global, values: &mut Vec<Value>, sign: TwoSign) -> Result<Value, Fail> {
    let right = Box::new(alloc, last(values)?)?;
    let left = Box::new(alloc, last(values)?)?;
    Ok(Value::Two { sign, left, right })
}

/// The value that a word makes.
fn value(alloc: Global, values: &mut Vec<Value>, word: &str) -> Result<Value, Fail> {
    let (sign, rest) = word.split_at_checked(1).unwrap_or((word, ""));
    match sign {
        "v" => Ok(Value::Variable(rest.parse()?)),
        "l" => Ok(Value::Local(rest.parse()?)),
        "i" => Ok(Value::Input {
            connector: rest.parse()?,
            at: Vec::new(alloc),
        }),
        "~" => Ok(Value::One {
            sign: OneSign::Inv,
            of: Box::new(alloc, last(values)?)?,
        }),
        "*" => two(alloc, values, TwoSign::Mul),
        "<" if rest.is_empty() => two(alloc, values, TwoSign::Less),
        "<" => two(alloc, values, TwoSign::LessEqual),
        _ => Ok(Value::Number(word.parse()?)),
    }
}

/// One word more.
fn put_word(
    alloc: Global,
    code: &mut Tasklet,
    values: &mut Vec<Value>,
    word: &str,
) -> Result<(), Fail> {
    let (sign, rest) = word.split_at_checked(2).unwrap_or((word, ""));
    match sign {
        "+v" => code.variables.push(rest.parse()?)?,
        "+l" => code.locals = code.locals.saturating_add(1),
        "=l" => code.body.push(Act::Local {
            local: rest.parse()?,
            value: last(values)?,
        })?,
        "=o" => code.body.push(Act::Out {
            connector: rest.parse()?,
            value: last(values)?,
            at: std::mem::replace(values, Vec::new(alloc)),
        })?,
        "wh" => {
            let when = last(values)?;
            let body = std::mem::replace(&mut code.body, Vec::new(alloc));
            let other = Vec::new(alloc);
            code.body.push(Act::When { when, body, other })?;
        }
        _ => {
            let made = value(alloc, values, word)?;
            values.push(made)?;
        }
    }
    Ok(())
}

/// Code, and the links of its inputs and outputs.
pub(crate) fn read_code(
    alloc: Global,
    text: &str,
) -> Result<(Tasklet, Vec<Link>, Vec<Link>), Fail> {
    let (sides, words) = text.split_once('|').unwrap_or((text, ""));
    let (before, behind) = sides.split_once('>').unwrap_or((sides, ""));
    let mut code = Tasklet {
        ins: Vec::new(alloc),
        outs: Vec::new(alloc),
        variables: Vec::new(alloc),
        locals: 0,
        body: Vec::new(alloc),
    };
    let mut ins = Vec::new(alloc);
    let mut outs = Vec::new(alloc);
    connect(alloc, before, &mut code.ins, &mut ins)?;
    connect(alloc, behind, &mut code.outs, &mut outs)?;
    let mut values = Vec::new(alloc);
    for word in words.split_ascii_whitespace() {
        put_word(alloc, &mut code, &mut values, word)?;
    }
    Ok((code, ins, outs))
}

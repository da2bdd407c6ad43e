//! Flat code that reads an element of an array and sets one of another.
use sd_compile::{compile, is_named};
use sd_graph::{Act, FaultKind, Port, Tasklet, Value};
use sd_list::{NoMemory, Text};
use sd_tcode::{Code, Frame, run};
use std::alloc::Global;
use std::test::Fail;

/// Two rows of three elements.
const ELEMENTS: [i64; 6] = [10, 11, 12, 13, 14, 15];

fn port(alloc: Global, dims: u32) -> Port {
    Port {
        connector: Text::from(String::new(alloc)),
        dims,
    }
}

/// `o[to] = t[row, column]`
fn tasklet(alloc: Global, to: i64, row: i64, column: i64) -> Result<Tasklet, NoMemory> {
    let act = Act::Out {
        connector: 1,
        at: vec![in alloc; Value::Number(to)]?,
        value: Value::Input {
            connector: 0,
            at: vec![in alloc; Value::Number(row), Value::Number(column)]?,
        },
    };
    Ok(Tasklet {
        ins: vec![in alloc; port(alloc, 2)]?,
        outs: vec![in alloc; port(alloc, 1)]?,
        variables: Vec::new(alloc),
        locals: 0,
        body: vec![in alloc; act]?,
    })
}

/// A frame for this code, with the array and an output of four elements; none where there is no room for that.
fn filled(alloc: Global, flat: &Code) -> Result<Option<Frame>, NoMemory> {
    if flat.input_count() != 1 {
        return Ok(None);
    }
    let mut frame = Frame::reserve(alloc, flat, &[6])?;
    if !frame.shape(0, &[2, 3]) || !frame.shape(1, &[4]) {
        return Ok(None);
    }
    for at in 0..6 {
        if at < frame.room_for(0) {
            frame.load(0, at as u64, ELEMENTS[at]);
        }
    }
    Ok(Some(frame))
}

/// What stands for the place of an effect where the code has a fault Subscript.
const FAULT: u64 = 100;

/// The place and the value of the one effect, or FAULT and 0; greater places are no answer of the code.
fn found(alloc: Global, to: i64, row: i64, column: i64) -> Result<(u64, i64), Fail> {
    let code = tasklet(alloc, to, row, column)?;
    if !is_named(&code) {
        return Ok((FAULT + 1, 0));
    }
    let flat = compile(alloc, &code)?;
    let Some(mut frame) = filled(alloc, &flat)? else {
        return Ok((FAULT + 2, 0));
    };
    if !frame.is_ready(&flat) {
        return Ok((FAULT + 3, 0));
    }
    match run(&flat, &mut frame) {
        Err(FaultKind::Subscript) => Ok((FAULT, 0)),
        Err(FaultKind::Division) => Ok((FAULT + 4, 0)),
        Ok(()) => match frame.effects() {
            [effect] => Ok((effect.at[0], effect.value)),
            _ => Ok((FAULT + 5, 0)),
        },
    }
}

#[test]
fn elements_are_read_and_set_where_they_are(rt: HostRuntime) -> Result<(), Fail> {
    let alloc = rt.alloc();
    assert_eq!(rt; found(alloc, 3, 1, 2)?, (3, 15));
    assert_eq!(rt; found(alloc, 0, 0, 0)?, (0, 10));
    assert_eq!(rt; found(alloc, 0, 2, 0)?, (FAULT, 0));
    assert_eq!(rt; found(alloc, 0, 0, 3)?, (FAULT, 0));
    assert_eq!(rt; found(alloc, 0, 0, -1)?, (FAULT, 0));
    assert_eq!(rt; found(alloc, 4, 0, 0)?, (FAULT, 0));
    Ok(())
}

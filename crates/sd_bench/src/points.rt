ghost use Rattle.std.specs.Prelude.{◌≡◌, ◌∷◌, [], IsTrue, Some};
ghost use Rattle.sd_tcode.specs.tcode.Compiled.{Compiled};
ghost use Rattle.sd_tcode.specs.tcode.Held.{IsReady};
ghost use Rattle.sd_bench.specs.Scalars.{HasScalars};

use crate::tasklets;
use sd_compile::{compile, is_named};
use sd_graph::FaultKind;
use sd_list::NoMemory;
use sd_tcode::{Code, Frame, run, run_plain};
use std::alloc::Global;

/// How many points a tasklet is run at.
const POINTS: u32 = 1024;

/// What an instance is given at a point, and what it stores there.
#[derive(Clone, Copy)]
struct Point {
    first: i64,
    second: i64,
    third: i64,
    out: i64,
}

/// A number around 0.
fn number(k: u32, modulus: u32) -> i64 {
    let rest = k.wrapping_mul(7919).checked_rem(modulus).unwrap_or(0);
    i64::from(rest) - i64::from(modulus / 2)
}

fn points(alloc: Global) -> Result<Vec<Point>, NoMemory> {
    let mut points = Vec::new(alloc);
    for k in 0..POINTS {
        points.push(Point {
            first: number(k, 1009),
            second: number(k, 997),
            third: number(k, 991),
            out: 0,
        })?;
    }
    Ok(points)
}

/// Gives the three inputs of an instance.
#[inline(always)]
fn load(frame: &mut Frame, point: &Point)
    requires { HasScalars frame.old }
    ensures scalars { HasScalars frame.new }
    ensures ready { (code : Compiled) → IsReady code frame.old → IsReady code frame.new }
{
    frame.load(0, 0, point.first);
    frame.load(1, 0, point.second);
    frame.load(2, 0, point.third);
}

/// Plain code with one output, at a point.
#[inline(always)]
fn plain_at(code: &Code, frame: &mut Frame, output: u32, point: &mut Point) -> Result<(), FaultKind>
    requires ready { IsReady code.now frame.old }
    requires scalars { HasScalars frame.old }
    requires plain { code.now.plain ≡ Some (output ∷ []) }
    ensures ready { IsReady code.now frame.new }
    ensures scalars { HasScalars frame.new }
{
    load(frame, point);
    let done = run_plain(code, frame);
    point.out = frame.output(output);
    done
}

/// Other code at a point: its last effect is what is stored.
#[inline(always)]
fn other_at(code: &Code, frame: &mut Frame, point: &mut Point) -> Result<(), FaultKind>
    requires ready { IsReady code.now frame.old }
    requires scalars { HasScalars frame.old }
    ensures ready { IsReady code.now frame.new }
    ensures scalars { HasScalars frame.new }
{
    load(frame, point);
    let done = run(code, frame);
    for effect in frame.effects() {
        point.out = effect.value;
    }
    done
}

/// One instance.
#[inline(always)]
fn at_point(code: &Code, frame: &mut Frame, point: &mut Point) -> Result<(), FaultKind>
    requires ready { IsReady code.now frame.old }
    requires scalars { HasScalars frame.old }
    ensures ready { IsReady code.now frame.new }
    ensures scalars { HasScalars frame.new }
{
    if let Some(order) = code.plain() {
        if order.len() == 1 {
            return plain_at(code, frame, order[0], point);
        }
    }
    other_at(code, frame, point)
}

/// All points so many times, or until there is a fault; whether there was none.
fn rounds(code: &Code, frame: &mut Frame, points: &mut [Point], times: u64) -> bool
    requires ready { IsReady code.now frame.old }
    requires scalars { HasScalars frame.old }
{
    for _ in 0..times {
        for point in points.iter_mut() {
            if at_point(code, frame, point).is_err() {
                return false;
            }
        }
    }
    true
}

/// The frame has three scalar inputs.
fn has_scalars(frame: &Frame) -> bool
    ensures { IsTrue result → HasScalars frame.now }
{
    for connector in 0..3 {
        if frame.room_for(connector) == 0 {
            return false;
        }
    }
    true
}

/// The code of the tasklet of this name. None of them names what it has not.
fn code_of(alloc: Global, name: &str) -> Result<Option<Code>, NoMemory> {
    let tasklet = tasklets::named(alloc, name)?;
    if !is_named(&tasklet) {
        return Ok(None);
    }
    Ok(Some(compile(alloc, &tasklet)?))
}

/// What the tasklet of this name stored in the last round, summed.
fn stored(alloc: Global, name: &str, times: u64) -> Result<Option<i64>, NoMemory> {
    let Some(code) = code_of(alloc, name)? else {
        return Ok(None);
    };
    if code.input_count() != 3 {
        return Ok(None);
    }
    let mut frame = Frame::reserve(alloc, &code, &[1, 1, 1])?;
    if !frame.is_ready(&code) || !has_scalars(&frame) {
        return Ok(None);
    }
    let mut points = points(alloc)?;
    if !rounds(&code, &mut frame, &mut points, times) {
        return Ok(None);
    }
    let mut sum = 0_i64;
    for point in &points {
        sum = sum.wrapping_add(point.out);
    }
    Ok(Some(sum))
}

/// A tasklet is run at all points.
pub(crate) fn sum(alloc: Global, name: &str, times: u64) -> Result<String, NoMemory> {
    Ok(match stored(alloc, name, times)? {
        Some(sum) => format!(in alloc; "{sum}\n")?,
        None => "fault\n".to_string(alloc)?,
    })
}

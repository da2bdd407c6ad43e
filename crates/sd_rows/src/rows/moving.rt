//! Where the accesses of a row lead, by where they lead at the ends of rows side by side.
ghost use Rattle.std.specs.Prelude.{◌≡◌, ℕ, ◌≤◌, ℤ, List, [], ◌++◌, map, length, Some, true, IsTrue};
ghost use Rattle.std.specs.Option.{MatchOption};
ghost use Rattle.std.specs.Bool.{⊤};
ghost use Rattle.std.specs.List.{AllByRecursion};
ghost use Rattle.sd_num.specs.Wrapped.{wrapped};
ghost use Rattle.sd_range.specs.Affine.{variable_value};
ghost use Rattle.sd_graph.specs.PlainTree.{TaskletTree};
ghost use Rattle.sd_graph.specs.Context.{Context, link_element};
ghost use Rattle.sd_graph.specs.Unfold.{pending_of};
ghost use Rattle.sd_graph.specs.declared.link.Link.{Link};
ghost use Rattle.sd_tcode.specs.tcode.Outputs.{output_effects};
ghost use Rattle.sd_scope.specs.even.Even.{is_scalar};
ghost use Rattle.sd_tcode.specs.columns.Columns.{value_on};
ghost use Rattle.sd_row.specs.row.Row.{IsAt, order_of, reference_on, write_on};
ghost use Rattle.sd_rows.specs.declared.rows.steps.Steps.{Steps as StepsNow};
ghost use Rattle.sd_rows.specs.rows.Along.{IsAlong};

use crate::rows::spacing::spaced_between;
use crate::rows::steps::Steps;
use sd_row::{Row, Track, Write};
use sd_tcode::Spaced;

/// The track of a row, from those of the first and the last points of rows side by side; its elements most often have this distance.
fn track_at(near: &Track, far: &Track, row: u32, gaps: u32, guess: i64) -> Option<Track>
    ensures { MatchOption result ⊤ (λ track. (steps : StepsNow) (values : List ℤ) (context : ℕ → Context) (link : Link) → IsAlong steps values context
        → link_element (context 0) link [] ≡ Some (reference_on near.now row) → link_element (context gaps) link [] ≡ Some (reference_on far.now row)
        → (k : ℕ) → k ≤ gaps → link_element (context k) link [] ≡ Some (reference_on track k)) }
{
    let begin = near.cell(row);
    let end = far.cell(row);
    let elements = spaced_between(begin.element, end.element, gaps, guess)?;
    Some(Track {
        station: begin.station,
        elements,
    })
}

/// Makes tracks those of a row, from those of the first and the last points of rows side by side; `false` where they are not made.
fn move_tracks(tracks: &mut [Track], near: &[Track], far: &[Track], row: u32, gaps: u32) -> bool
    ensures count { IsTrue result → length tracks.new ≡ length near.now }
    ensures tracks { IsTrue result → (steps : StepsNow) (values : List ℤ) (context : ℕ → Context) (links : List Link) → IsAlong steps values context
        → map (λ link. link_element (context 0) link []) links ≡ map (λ track. Some (reference_on track row)) near.now
        → map (λ link. link_element (context gaps) link []) links ≡ map (λ track. Some (reference_on track row)) far.now
        → (k : ℕ) → k ≤ gaps → map (λ link. link_element (context k) link []) links ≡ map (λ track. Some (reference_on track k)) tracks.new }
{
    if tracks.len() != near.len() || tracks.len() != far.len() {
        return false;
    }
    for number in 0..tracks.len() {
        let guess = tracks[number].elements.step;
        let Some(track) = track_at(&near[number], &far[number], row, gaps, guess) else {
            return false;
        };
        tracks[number] = track;
    }
    true
}

/// The values of a variable in a row: the last parameter takes its steps, and any other keeps the value of the first point.
fn numbers_at(variable: u32, steps: &Steps, near: &Spaced, row: u32) -> Spaced
    ensures { (values : List ℤ) (context : ℕ → Context) → IsAlong steps.now values context → wrapped (variable_value (context 0).values variable) ≡ value_on near.now row
        → (k : ℕ) → wrapped (variable_value (context k).values variable) ≡ value_on result k }
{
    if variable == steps.variable {
        return Spaced {
            first: steps.first,
            step: steps.step,
        };
    }
    Spaced {
        first: near.at(row),
        step: 0,
    }
}

/// Makes the values of variables those of a row, from those of the first points of rows side by side; `false` where they are not made.
fn move_values(
    numbers: &mut [Spaced],
    variables: &[u32],
    steps: &Steps,
    near: &[Spaced],
    row: u32,
) -> bool
    ensures count { IsTrue result → length numbers.new ≡ length near.now }
    ensures numbers { IsTrue result → (values : List ℤ) (context : ℕ → Context) → IsAlong steps.now values context
        → map (λ variable. wrapped (variable_value (context 0).values variable)) variables.now ≡ map (λ numbers. value_on numbers row) near.now
        → (k : ℕ) → map (λ variable. wrapped (variable_value (context k).values variable)) variables.now ≡ map (λ numbers. value_on numbers k) numbers.new }
{
    if numbers.len() != variables.len() || numbers.len() != near.len() {
        return false;
    }
    for number in 0..numbers.len() {
        numbers[number] = numbers_at(variables[number], steps, &near[number], row);
    }
    true
}

/// The write of a row, from those of the first and the last points of rows side by side.
fn write_at(near: &Write, far: &Write, row: u32, gaps: u32, guess: i64) -> Option<Write>
    ensures connector { MatchOption result ⊤ (λ write. write.connector ≡ near.now.connector) }
    ensures at { MatchOption result ⊤ (λ write. (steps : StepsNow) (values : List ℤ) (context : ℕ → Context) (ins outs : List Link) (connector : ℕ) (value : ℕ → ℤ) → IsAlong steps values context
        → pending_of (context 0) ins outs (record { connector = connector; at = []; value = value connector }) ≡ write_on value row near.now
        → pending_of (context gaps) ins outs (record { connector = connector; at = []; value = value connector }) ≡ write_on value row far.now
        → (k : ℕ) → k ≤ gaps → pending_of (context k) ins outs (record { connector = connector; at = []; value = value connector }) ≡ write_on value k write) }
{
    let to = track_at(&near.to, &far.to, row, gaps, guess)?;
    Some(Write {
        connector: near.connector,
        by: near.by,
        to,
    })
}

/// Makes writes those of a row, from those of the first and the last points of rows side by side; `false` where they are not made.
fn move_writes(writes: &mut [Write], near: &[Write], far: &[Write], row: u32, gaps: u32) -> bool
    ensures connectors { IsTrue result → map (λ write. write.connector) writes.new ≡ map (λ write. write.connector) near.now }
    ensures writes { IsTrue result → (steps : StepsNow) (values : List ℤ) (context : ℕ → Context) (ins outs : List Link) (order : List ℕ) (value : ℕ → ℤ) → IsAlong steps values context
        → map (pending_of (context 0) ins outs) (output_effects value order) ≡ map (write_on value row) near.now
        → map (pending_of (context gaps) ins outs) (output_effects value order) ≡ map (write_on value row) far.now
        → (k : ℕ) → k ≤ gaps → map (pending_of (context k) ins outs) (output_effects value order) ≡ map (write_on value k) writes.new }
{
    if writes.len() != near.len() || writes.len() != far.len() {
        return false;
    }
    for number in 0..writes.len() {
        let guess = writes[number].to.elements.step;
        let Some(write) = write_at(&near[number], &far[number], row, gaps, guess) else {
            return false;
        };
        writes[number] = write;
    }
    true
}

/// Makes the accesses of a row, of a tasklet with these variables, from those of the first and the last points of rows side by side,
/// where it has this number; `false` where they are not made.
pub(crate) fn move_row(
    row: &mut Row,
    near: &Row,
    far: &Row,
    variables: &[u32],
    steps: &Steps,
    number: u32,
    gaps: u32,
) -> bool
    ensures order { IsTrue result → order_of row.new ≡ order_of near.now }
    ensures reads { IsTrue result → length row.new.reads.items ≡ length near.now.reads.items }
    ensures variables { IsTrue result → length row.new.variables.items ≡ length near.now.variables.items }
    ensures at { IsTrue result → (values : List ℤ) (context : ℕ → Context) (tree : TaskletTree) (ins outs : List Link) → tree.variables ≡ variables.now → order_of far.now ≡ order_of near.now
        → AllByRecursion (λ link. is_scalar link.memlet.subset.dims ≡ true) (ins ++ outs) → IsAlong steps.now values context
        → IsAt tree ins outs near.now number (context 0) → IsAt tree ins outs far.now number (context gaps)
        → (k : ℕ) → k ≤ gaps → IsAt tree ins outs row.new k (context k) }
{
    if !move_tracks(&mut row.reads, &near.reads, &far.reads, number, gaps) {
        return false;
    }
    if !move_values(
        &mut row.variables,
        variables,
        steps,
        &near.variables,
        number,
    ) {
        return false;
    }
    move_writes(&mut row.writes, &near.writes, &far.writes, number, gaps)
}
